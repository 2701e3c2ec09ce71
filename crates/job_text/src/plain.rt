//! Plain text, of which each byte is a part: a character, or a space between words (TeX: The
//! Program, sections 1034 and 1041). Most of a job is plain text, so its parts are made at once, in
//! room that is reserved before.
ghost use Rattle.std.specs.Prelude.{◌≡◌, ◌+◌, ◌<◌, ◌≤◌, ◌^◌, ◌++◌, length, IfOk};
ghost use Rattle.job_text.specs.PlainParts.{byte_part, plain_parts};

use items::Items;
use job_reading::PlainText;
use micro_num::{NoMemory, Part, PartAt};

/// These parts, and those of plain text behind them.
#[tactic(auto, using(crate::proofs::PlainParts::parts_begin, crate::proofs::PlainParts::parts_step, crate::proofs::PlainParts::parts_end))]
pub(crate) fn with_plain(parts: Items<PartAt>, text: PlainText) -> Result<Items<PartAt>, NoMemory>
    requires within { text.from + text.count ≤ length text.bytes.now }
    requires small { length text.bytes.now < 2 ^ 32 }
    ensures { IfOk result (λ more. more
        ≡ parts ++ plain_parts text.entry.bytes.now text.entry.from text.entry.count) }
{
    let mut list = parts.into_vec();
    list.reserve(text.count)?;
    for place in text.from..text.from + text.count {
        list.push_reserved(PartAt {
            offset: place as u32,
            part: byte_part(text.bytes[place]),
        });
    }
    Ok(Items::from_vec(list))
}

/// The part that a byte of plain text is. Its blanks are the bytes up to 32.
#[inline(always)]
fn byte_part(byte: u8) -> Part
    ensures { result ≡ byte_part byte }
{
    if byte > 32 {
        Part::Char { code: byte }
    } else {
        Part::Space
    }
}
