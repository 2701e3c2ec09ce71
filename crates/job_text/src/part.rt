//! The parts of a paragraph, one for each token or control word (TeX: The Program, sections 1030 to
//! 1120).
ghost use Rattle.job_reading.specs.Reading.{ChangesOrMemory};
ghost use Rattle.std.specs.Prelude.{◌≡◌, ◌<◌, ◌≤◌, ◌^◌, length, IfOk};
ghost use Rattle.job_text.specs.Parts.{text, symbol, open_group, close_group, font_word, command};
ghost use Rattle.job_text.specs.Parts.{discretionary, part};

use crate::discretionary::{group, is_character_symbol};
use crate::groups::Group;
use crate::names::Names;
use crate::setting::Setting;
use job_reading::{
    JobFault, JobFaultKind, Lexeme, Rest, Source, Token, Word, dimension, glue, natural, number,
};
use micro_num::{Disc, Part};
use std::alloc::Global;

/// The part that a token begins in a paragraph, and the tokens behind it.
#[tactic(auto, unfolding(crate::specs::Parts::part))]
#[inline(always)]
pub(crate) fn part<'a>(
    alloc: Global,
    source: &Source,
    names: &Names,
    setting: &mut Setting,
    token: Token,
    tail: Rest<'a>,
) -> Result<Rest<'a>, JobFault>
    ensures { ChangesOrMemory setting.new result (part source.now names.now setting.old token)
        tail.entry }
{
    match token.lexeme {
        Lexeme::Char(code) => text(setting, token, Part::Char { code }, tail),
        Lexeme::Space => text(setting, token, Part::Space, tail),
        Lexeme::Tie => text(setting, token, Part::Tie, tail),
        Lexeme::Symbol(code) => symbol(setting, token, code, tail),
        Lexeme::Open => open_group(setting, token, tail),
        Lexeme::Close => close_group(setting, token, tail),
        Lexeme::Letter(_) | Lexeme::Name => font_word(source, names, setting, token, tail),
        Lexeme::Word(word) => command(alloc, source, setting, token, word, tail),
        Lexeme::EmptyLine => Ok(tail),
    }
}

/// A part that needs a current font.
#[tactic(auto, unfolding(crate::specs::Parts::text))]
#[inline(always)]
fn text<'a>(
    setting: &mut Setting,
    token: Token,
    part: Part,
    tail: Rest<'a>,
) -> Result<Rest<'a>, JobFault>
    ensures { ChangesOrMemory setting.new result (text setting.old token.from part) tail.entry }
{
    setting.require_font(token)?;
    setting.add(token.from, part)?;
    Ok(tail)
}

#[tactic(auto, unfolding(crate::specs::Parts::symbol))]
fn symbol<'a>(
    setting: &mut Setting,
    token: Token,
    code: u8,
    tail: Rest<'a>,
) -> Result<Rest<'a>, JobFault>
    ensures { ChangesOrMemory setting.new result (symbol setting.old token.from code) tail.entry }
{
    if is_character_symbol(code) {
        text(setting, token, Part::Char { code }, tail)
    } else if code == b' ' {
        text(setting, token, Part::Normal, tail)
    } else if code == b'-' {
        text(setting, token, Part::Hyphen, tail)
    } else {
        Err(JobFault::from(token.fault(JobFaultKind::UnknownWord)))
    }
}

#[tactic(auto, unfolding(crate::specs::Parts::open_group))]
fn open_group<'a>(setting: &mut Setting, token: Token, tail: Rest<'a>) -> Result<Rest<'a>, JobFault>
    ensures { ChangesOrMemory setting.new result (open_group setting.old token.from) tail.entry }
{
    let group = Group {
        font: setting.current,
        brace: token.from,
    };
    setting.groups.open(group)?;
    setting.add_current(token.from)?;
    Ok(tail)
}

#[tactic(auto, unfolding(crate::specs::Parts::close_group))]
fn close_group<'a>(
    setting: &mut Setting,
    token: Token,
    tail: Rest<'a>,
) -> Result<Rest<'a>, JobFault>
    ensures { ChangesOrMemory setting.new result (close_group setting.old token.from) tail.entry }
{
    match setting.groups.close() {
        Some(group) => {
            setting.current = group.font;
            setting.add_current(token.from)?;
            Ok(tail)
        }
        None => Err(JobFault::from(token.fault(JobFaultKind::StrayBrace))),
    }
}

/// A font word selects its font.
#[tactic(auto, unfolding(crate::specs::Parts::font_word))]
fn font_word<'a>(
    source: &Source,
    names: &Names,
    setting: &mut Setting,
    token: Token,
    tail: Rest<'a>,
) -> Result<Rest<'a>, JobFault>
    ensures { ChangesOrMemory setting.new result
        (font_word source.now names.now setting.old token) tail.entry }
{
    match names.find(source.name(token)) {
        Some(font) => {
            setting.current = Some(font);
            setting.add_current(token.from)?;
            Ok(tail)
        }
        None => Err(JobFault::from(token.fault(JobFaultKind::UnknownWord))),
    }
}

#[tactic(auto, unfolding(crate::specs::Parts::command))]
fn command<'a>(
    alloc: Global,
    source: &Source,
    setting: &mut Setting,
    token: Token,
    word: Word,
    tail: Rest<'a>,
) -> Result<Rest<'a>, JobFault>
    ensures { ChangesOrMemory setting.new result
        (command (length source.now) setting.old token.from word) tail.entry }
{
    match word {
        Word::ParEnd | Word::Bye | Word::End | Word::Noindent => Ok(tail),
        Word::Relax => {
            setting.add_current(token.from)?;
            Ok(tail)
        }
        Word::Char => {
            setting.require_font(token)?;
            let (code, behind) = natural(0, 255, source, tail)?;
            setting.add(token.from, Part::Char { code: code as u8 })?;
            Ok(behind)
        }
        Word::Kern => {
            let (width, behind) = dimension(source, tail)?;
            setting.add(token.from, Part::Kern { width })?;
            Ok(behind)
        }
        Word::Hskip => {
            let (glue, behind) = glue(source, tail)?;
            setting.add(token.from, Part::Skip { glue })?;
            Ok(behind)
        }
        Word::Penalty => {
            let (value, behind) = number(source, tail)?;
            setting.add(token.from, Part::Penalty { value })?;
            Ok(behind)
        }
        Word::Discretionary => discretionary(alloc, source, setting, token, tail),
        Word::Parshape
        | Word::Declaration(_)
        | Word::Integer(_)
        | Word::Dimension(_)
        | Word::Glue(_) => { Err(JobFault::from(token.fault(JobFaultKind::AssignmentInParagraph))) }
    }
}

/// A discretionary and its three groups.
#[tactic(auto, unfolding(crate::specs::Parts::discretionary))]
fn discretionary<'a>(
    alloc: Global,
    source: &Source,
    setting: &mut Setting,
    token: Token,
    tail: Rest<'a>,
) -> Result<Rest<'a>, JobFault>
    ensures { ChangesOrMemory setting.new result
        (discretionary (length source.now) setting.old token.from) tail.entry }
{
    setting.require_font(token)?;
    let (pre, rest) = group(alloc, source, tail)?;
    let (post, rest) = group(alloc, source, rest)?;
    let (whole, rest) = group(alloc, source, rest)?;
    let lists = Disc::new(alloc, pre, post, whole)?;
    setting.add(token.from, Part::Disc { lists })?;
    Ok(rest)
}
