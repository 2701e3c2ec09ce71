//! The declaration of a font: `\font`, a word, a file's name and a size (TeX: The Program, section
//! 1257).
ghost use Rattle.job_reading.specs.Rest.{left};
ghost use Rattle.job_reading.specs.Reading.{Reads, ReadsOrMemory, ChangesOrMemory};
ghost use Rattle.std.specs.Prelude.{◌≡◌, ◌<◌, ◌≤◌, ◌^◌, length, vec_len, IfOk, OnOk};
ghost use Rattle.job_text.specs.Fonts.{fonts_of};
ghost use Rattle.job_text.specs.FontDeclaration.{new_word, name_bytes, behind_name, file_name};
ghost use Rattle.job_text.specs.FontDeclaration.{size, font};

use crate::font_decl::FontDecl;
use crate::fonts::push_font;
use crate::names::{MOST_FONTS, Names};
use font_stock::Size;
use items::Items;
use job_reading::{Fault, JobFault, JobFaultKind, Lexeme, Rest, Source, Token, dimension, natural};
use micro_num::NoMemory;
use std::alloc::Global;

/// The most bytes of a file's name.
const LONGEST_NAME: usize = 40;

/// `\font`: declares a font by a word, a file's name and a size.
#[tactic(auto, unfolding(crate::specs::FontDeclaration::font))]
pub(crate) fn font<'a>(
    alloc: Global,
    source: &Source,
    names: &mut Names,
    fonts: &mut Vec<FontDecl>,
    token: Token,
    rest: Rest<'a>,
) -> Result<Rest<'a>, JobFault>
    requires counts { length names.old ≡ vec_len fonts.old }
    ensures value { ChangesOrMemory (record {
      fonts = fonts_of fonts.new.items;
      names = names.new;
    }) result (font source.now names.old (fonts_of fonts.old.items) token.from) rest.entry }
    ensures counts { OnOk result (length names.new ≡ vec_len fonts.new) }
{
    if names.len() >= MOST_FONTS {
        return Err(JobFault::from(token.fault(JobFaultKind::TooManyFonts)));
    }
    let (word, rest) = new_word(source, names, rest)?;
    let (file, rest) = file_name(alloc, source, rest.skip_equals())?;
    let (size, rest) = size(source, rest.skip_space())?;
    names.push(Items::from_slice(alloc, source.name(word))?)?;
    push_font(fonts, file, size)?;
    Ok(rest)
}

/// A control word without a meaning so far.
#[tactic(auto, unfolding(crate::specs::FontDeclaration::new_word))]
fn new_word<'a>(source: &Source, names: &Names, rest: Rest<'a>) -> Result<(Token, Rest<'a>), Fault>
    ensures { Reads (λ x. x) result (new_word source.now names.now) rest.entry }
{
    let Some((token, tail)) = rest.next() else {
        return Err(source.fault(JobFaultKind::BadName, rest));
    };
    let taken = token.fault(JobFaultKind::NameTaken);
    match token.lexeme {
        Lexeme::Word(_) => Err(taken),
        Lexeme::Letter(_) | Lexeme::Name => match names.find(source.name(token)) {
            Some(_) => Err(taken),
            None => Ok((token, tail)),
        },
        _ => Err(token.fault(JobFaultKind::BadName)),
    }
}

/// The name of a file of 1 to 40 bytes.
#[tactic(auto, unfolding(crate::specs::FontDeclaration::file_name))]
fn file_name<'a>(
    alloc: Global,
    source: &Source,
    rest: Rest<'a>,
) -> Result<(Items<u8>, Rest<'a>), JobFault>
    ensures { ReadsOrMemory (λ x. x) result (file_name (length source.now)) rest.entry }
{
    let (name, behind) = name_bytes(alloc, rest)?;
    if name.is_empty() {
        return Err(JobFault::from(source.fault(JobFaultKind::BadName, rest)));
    }
    if name.len() > LONGEST_NAME {
        return Err(JobFault::from(source.fault(JobFaultKind::BadName, rest)));
    }
    Ok((Items::from_vec(name), behind))
}

/// The bytes of a name at the front: letters, digits and `-`.
fn name_bytes<'a>(alloc: Global, rest: Rest<'a>) -> Result<(Vec<u8>, Rest<'a>), NoMemory>
    ensures value { IfOk result (λ x. x.0.items ≡ name_bytes (left rest.entry)) }
    ensures within { IfOk result (λ x. length (left x.1) ≤ length (left rest.entry)) }
    ensures behind { IfOk result (λ x. left x.1 ≡ behind_name (left rest.entry)) }
{
    let mut name = Vec::new(alloc);
    let mut more = rest;
    while let Some((token, tail)) = more.next() {
        let Some(byte) = token.lexeme.name_byte() else {
            break;
        };
        name.push(byte)?;
        more = tail;
    }
    Ok((name, more))
}

/// `at` and a dimension, or `scaled` and a number, or neither.
#[tactic(auto, unfolding(crate::specs::FontDeclaration::size))]
fn size<'a>(source: &Source, rest: Rest<'a>) -> Result<(Size, Rest<'a>), Fault>
    ensures { Reads (λ x. x) result (size (length source.now)) rest.entry }
{
    if let Some(at) = rest.keyword(b"at") {
        let (size, behind) = dimension(source, at)?;
        if size < 1 {
            return Err(source.fault(JobFaultKind::NumberPast, at));
        }
        Ok((Size::At { size }, behind))
    } else if let Some(scaled) = rest.keyword(b"scaled") {
        let (by, behind) = natural(1, 32768, source, scaled)?;
        Ok((Size::Scaled { by }, behind))
    } else {
        Ok((Size::Design, rest))
    }
}
