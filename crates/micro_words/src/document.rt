//! The job of a generated document.
ghost use Rattle.std.specs.Prelude.{◌≡◌, ◌≤◌, ◌<◌, ◌^◌, IfOk, length};
ghost use Rattle.micro_words.specs.Documents.{job};

use crate::paragraph::put_paragraph;
use micro_num::NoMemory;
use std::alloc::Global;

/// The lines before the paragraphs: the font, which expands, and the settings.
const SETTINGS: &str = "\\font\\genrm=tiny10 \\genrm
\\pdffontexpand\\genrm 20 20 1
\\pdfadjustspacing=2 \\pdfprotrudechars=2
\\rpcode\\genrm 46=700 \\rpcode\\genrm 44=500
\\hsize=200pt \\tolerance=1000 \\emergencystretch=10pt
";

/// More bytes than a paragraph has: 79 words of 9 letters, each with a comma and a space.
const MOST_PARAGRAPH_BYTES: usize = 870;

/// The job of so many paragraphs, from 1 to 20000, which that number alone determines.
pub fn gen_job(alloc: Global, n: u32) -> Result<Vec<u8>, NoMemory>
    requires some { 1 ≤ n }
    requires few { n ≤ 20000 }
    ensures job { IfOk result (λ bytes. bytes.items ≡ job n) }
    ensures few { IfOk result (λ bytes. length bytes.items < 2 ^ 32) }
{
    let room = SETTINGS.len() + n as usize * MOST_PARAGRAPH_BYTES;
    let mut text = Vec::with_capacity(alloc, room)?;
    text.extend_from_slice(SETTINGS.as_bytes())?;
    let mut state = n;
    for _paragraph in 0..n {
        state = put_paragraph(&mut text, state)?;
    }
    Ok(text)
}
