//! The declarations that say something of a font, which a font word names (pdfTeX manual, the
//! chapter on fonts).
ghost use Rattle.job_reading.specs.Reading.{Gives, Reads, Changes};
ghost use Rattle.std.specs.Prelude.{◌≡◌, ◌<◌, ◌≤◌, ◌^◌, length, vec_len, MatchOption, IfOk};
ghost use Rattle.std.specs.Prelude.{MatchResult};
ghost use Rattle.font_stock.specs.Ranges.{IsHang};
ghost use Rattle.job_text.specs.Fonts.{fonts_of, limits_of, hang_of, factor_of, whole_limits};
ghost use Rattle.job_text.specs.Fonts.{step_count};
ghost use Rattle.job_text.specs.FontWords.{wanted_font, font_code, assign_code, hyphen_character};
ghost use Rattle.job_text.specs.FontWords.{few_steps, expansion};

use crate::font_decl::FontDecl;
use crate::fonts::{is_expanded, set_expand, set_factor, set_hyphen, set_left, set_right};
use crate::names::Names;
use font_stock::Expand;
use job_reading::{Fault, JobFaultKind, Rest, Source, Token, natural, number};

/// The most steps of a font's expansion.
const MOST_STEPS: u32 = 128;

/// The font whose word comes first.
#[tactic(auto, unfolding(crate::specs::FontWords::wanted_font))]
pub(crate) fn wanted_font<'a>(
    source: &Source,
    names: &Names,
    rest: Rest<'a>,
) -> Result<(u32, Rest<'a>), Fault>
    ensures value { Reads (λ x. x) result (wanted_font source.now names.now) rest.entry }
    ensures declared { IfOk result (λ x. x.0 < length names.now) }
{
    let Some((token, tail)) = rest.next() else {
        return Err(source.fault(JobFaultKind::FontNotDeclared, rest));
    };
    if !token.lexeme.is_name() {
        return Err(token.fault(JobFaultKind::FontNotDeclared));
    }
    match names.find(source.name(token)) {
        Some(font) => Ok((font, tail)),
        None => Err(token.fault(JobFaultKind::FontNotDeclared)),
    }
}

/// A table of a font over the 256 codes.
#[derive(Clone, Copy, Debug)]
pub(crate) enum CodeTable {
    /// How far a character hangs into the left margin.
    Left,
    /// How far a character hangs into the right margin.
    Right,
    /// A character's share in the expansion.
    Factor,
}

/// A font, a code of it, and a value.
#[derive(Clone, Copy, Debug)]
struct FontCode {
    font: u32,
    code: u8,
    value: i32,
}

/// A font word, a code, optionally an equals sign, and a number.
#[tactic(auto, unfolding(crate::specs::FontWords::font_code))]
fn font_code<'a>(
    source: &Source,
    names: &Names,
    rest: Rest<'a>,
) -> Result<(FontCode, Rest<'a>), Fault>
    ensures value { Reads (λ x. record { font = x.font; code = x.code; value = x.value }) result
        (font_code source.now names.now) rest.entry }
    ensures declared { IfOk result (λ x. x.0.font < length names.now) }
{
    let (font, rest) = wanted_font(source, names, rest)?;
    let (code, rest) = natural(0, 255, source, rest)?;
    let (value, rest) = number(source, rest.skip_equals())?;
    let code = code as u8;
    Ok((FontCode { font, code, value }, rest))
}

/// A hang brought into -1000 to 1000.
fn hang(value: i32) -> i16
    ensures value { result ≡ hang_of value }
    ensures range { IsHang result }
{
    if value < -1000 {
        -1000
    } else if value > 1000 {
        1000
    } else {
        value as i16
    }
}

/// A share brought into 0 to 1000.
fn factor(value: i32) -> u16
    ensures value { result ≡ factor_of value }
    ensures range { result ≤ 1000 }
{
    if value < 0 {
        0
    } else {
        (value as u32).min(1000) as u16
    }
}

/// `\lpcode`, `\rpcode` or `\efcode`: a code of a font gets a value in a table.
#[tactic(auto, unfolding(crate::specs::FontWords::assign_code))]
pub(crate) fn assign_code<'a>(
    table: CodeTable,
    source: &Source,
    names: &Names,
    fonts: &mut Vec<FontDecl>,
    rest: Rest<'a>,
) -> Result<Rest<'a>, Fault>
    requires counts { length names.now ≡ vec_len fonts.old }
    ensures value { Changes (fonts_of fonts.new.items) result
        (assign_code table source.now names.now (fonts_of fonts.old.items)) rest.entry }
    ensures count { vec_len fonts.new ≡ vec_len fonts.old }
{
    let (found, rest) = font_code(source, names, rest)?;
    let FontCode { font, code, value } = found;
    match table {
        CodeTable::Left => set_left(fonts, font, code, hang(value)),
        CodeTable::Right => set_right(fonts, font, code, hang(value)),
        CodeTable::Factor => set_factor(fonts, font, code, factor(value)),
    }
    Ok(rest)
}

/// `\hyphenchar`: the code of the hyphen character.
#[tactic(auto, unfolding(crate::specs::FontWords::hyphen_character))]
pub(crate) fn hyphen_character<'a>(
    source: &Source,
    names: &Names,
    fonts: &mut Vec<FontDecl>,
    rest: Rest<'a>,
) -> Result<Rest<'a>, Fault>
    requires counts { length names.now ≡ vec_len fonts.old }
    ensures value { Changes (fonts_of fonts.new.items) result
        (hyphen_character source.now names.now (fonts_of fonts.old.items)) rest.entry }
    ensures count { vec_len fonts.new ≡ vec_len fonts.old }
{
    let (font, rest) = wanted_font(source, names, rest)?;
    let (hyphen, rest) = number(source, rest.skip_equals())?;
    set_hyphen(fonts, font, hyphen);
    Ok(rest)
}

/// `\pdffontexpand`: how far a font may be expanded, once for each font.
#[tactic(auto, unfolding(crate::specs::FontWords::expansion))]
pub(crate) fn expansion<'a>(
    source: &Source,
    names: &Names,
    fonts: &mut Vec<FontDecl>,
    token: Token,
    rest: Rest<'a>,
) -> Result<Rest<'a>, Fault>
    requires counts { length names.now ≡ vec_len fonts.old }
    ensures value { Changes (fonts_of fonts.new.items) result
        (expansion source.now names.now (fonts_of fonts.old.items) token.from) rest.entry }
    ensures count { vec_len fonts.new ≡ vec_len fonts.old }
{
    let (font, rest) = wanted_font(source, names, rest)?;
    if is_expanded(fonts, font) {
        return Err(token.fault(JobFaultKind::NameTaken));
    }
    let (stretch, rest) = natural(0, 1000, source, rest)?;
    let (shrink, rest) = natural(0, 500, source, rest)?;
    let (step, rest) = natural(1, 100, source, rest)?;
    let expand = whole_steps(token, stretch, shrink, step)?;
    set_expand(fonts, font, expand);
    match rest.keyword(b"autoexpand") {
        Some(behind) => Ok(behind),
        None => Ok(rest),
    }
}

/// The limits cut to whole steps, where there are not too many of these.
fn whole_steps(token: Token, stretch: u32, shrink: u32, step: u32) -> Result<Expand, Fault>
    requires stretch { stretch ≤ 1000 }
    requires shrink { shrink ≤ 500 }
    requires least { 1 ≤ step }
    requires most { step ≤ 100 }
    ensures { Gives limits_of result (few_steps token.from (whole_limits stretch shrink step)) }
{
    let stretch = stretch / step * step;
    let shrink = shrink / step * step;
    if (stretch + shrink) / step > MOST_STEPS {
        return Err(token.fault(JobFaultKind::TooManyCells));
    }
    Ok(Expand {
        stretch: stretch as u16,
        shrink: shrink as u16,
        step: step as u16,
    })
}
