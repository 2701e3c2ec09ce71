//! A paragraph, part after part, up to the token that ends it (TeX: The Program, sections 1030 to
//! 1096).
ghost use Rattle.job_reading.specs.Reading.{ReadsOrMemory, ChangesOrMemory};
ghost use Rattle.std.specs.Prelude.{◌≡◌, ◌<◌, ◌≤◌, ◌^◌, length, IfOk};
ghost use Rattle.job_reading.specs.Lexemes.{ends_paragraph};
ghost use Rattle.job_text.specs.Parts.{part};
ghost use Rattle.job_reading.specs.Repeats.{read_until};
ghost use Rattle.job_text.specs.Paragraphs.{first_part, GoesOnAs, paragraph};
ghost use Rattle.job_reading.specs.Rest.{left};

use crate::groups::Groups;
use crate::names::Names;
use crate::part::part;
use crate::setting::Setting;
use items::Items;
use job_reading::{JobFault, Rest, Source, Token};
use micro_num::{NoMemory, PartAt};
use std::alloc::Global;

/// The room for parts that a paragraph begins with, so that the list of most is never moved.
const FIRST_ROOM: usize = 512;

/// The parts of a paragraph, and the font that is current behind them.
type Laid = (Items<PartAt>, Option<u32>);

/// The parts of a paragraph of which the first token stands at a place, the font that is current
/// behind them, and the tokens from the end of the paragraph on. The first token may be a part.
#[tactic(auto, unfolding(crate::specs::Paragraphs::paragraph))]
pub(crate) fn paragraph<'a>(
    alloc: Global,
    source: &Source,
    names: &Names,
    current: Option<u32>,
    from: u32,
    first: Option<Token>,
    tail: Rest<'a>,
) -> Result<(Laid, Rest<'a>), JobFault>
    ensures { ReadsOrMemory (λ x. x) result (paragraph source.now names.now current from first)
        tail.entry }
{
    let mut setting = Setting {
        parts: Items::from_vec(Vec::with_capacity(alloc, FIRST_ROOM)?),
        current,
        groups: Groups::new(alloc),
    };
    setting.add_current(from)?;
    let behind = first_part(alloc, source, names, &mut setting, first, tail)?;
    let left = parts(alloc, source, names, &mut setting, behind)?;
    setting.groups.no_open_group()?;
    let Setting {
        parts,
        current,
        groups: _groups,
    } = setting;
    Ok(((without_room(parts), current), left))
}

/// The same parts in no more memory than they take, as most of a job's memory is theirs.
fn without_room(parts: Items<PartAt>) -> Items<PartAt>
    ensures { result ≡ parts }
{
    let mut list = parts.into_vec();
    list.shrink_to_fit();
    Items::from_vec(list)
}

/// The part that the first token is, if it is one.
fn first_part<'a>(
    alloc: Global,
    source: &Source,
    names: &Names,
    setting: &mut Setting,
    first: Option<Token>,
    tail: Rest<'a>,
) -> Result<Rest<'a>, JobFault>
    ensures { ChangesOrMemory setting.new result
        (first_part source.now names.now setting.old first) tail.entry }
{
    match first {
        Some(token) => part(alloc, source, names, setting, token, tail),
        None => Ok(tail),
    }
}

/// The parts up to the end of a paragraph, and the tokens from there on.
fn parts<'a>(
    alloc: Global,
    source: &Source,
    names: &Names,
    setting: &mut Setting,
    rest: Rest<'a>,
) -> Result<Rest<'a>, JobFault>
    ensures { ChangesOrMemory setting.new result
        (read_until ends_paragraph (part source.now names.now) setting.old) rest.entry }
{
    let mut more = rest;
    while let Some((token, tail)) = more.next() {
        if token.lexeme.ends_paragraph() {
            return Ok(more);
        }
        let behind = part(alloc, source, names, setting, token, tail)?;
        more = plain_parts(alloc, setting, behind)?;
    }
    Ok(more)
}

/// The parts of the plain text that comes first, and the tokens behind it. Without a current font
/// there is none.
fn plain_parts<'a>(
    alloc: Global,
    setting: &mut Setting,
    rest: Rest<'a>,
) -> Result<Rest<'a>, NoMemory>
    ensures value { IfOk result (λ behind.
        GoesOnAs setting.old (left rest.entry) setting.new (left behind)) }
    ensures within { IfOk result (λ behind. length (left behind) ≤ length (left rest.entry)) }
{
    if setting.current.is_none() {
        return Ok(rest);
    }
    let (text, behind) = rest.plain_text();
    setting.add_plain(alloc, text)?;
    Ok(behind)
}
