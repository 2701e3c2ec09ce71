//! What a font at a size says of some characters.

ghost use Rattle.std.specs.Prelude.{◌≡◌, true, IfSome, Contains};
ghost use Rattle.std.specs.Option.{ForSome};
ghost use Rattle.font_stock.specs.Sizes.{IsSize};
ghost use Rattle.micro_num.specs.Scaling.{IsFixWord};

use crate::tfm::font_of;
use font_stock::{Expand, Font, FontCodes, FontRefused, Size};
use std::alloc::{AllocError, Global};
use std::rt::Files;
use tfm_read::Tfm;

/// The size, the spaces and the entries of a font, as `lig10 design 20,20,4 97:1000 111/-65536`: a
/// character with its share in the expansion, or a kern after a character. Or the cause why the
/// font is refused. None where the line is out of form or names no font.
pub fn answer<R: Files>(rt: &R, alloc: Global, left: &str) -> Result<Option<String>, AllocError> {
    let Some((name, size, expand, settings)) = parts(left) else {
        return Ok(None);
    };
    let Some(tfm) = font_of(rt, alloc, name)? else {
        return Ok(None);
    };
    let (Some(size), Some(codes)) = (size_of(size), codes_of(settings)) else {
        return Ok(None);
    };
    let expand = match expand {
        "none" => None,
        limits => {
            let Some(limits) = expand_of(limits) else {
                return Ok(None);
            };
            Some(limits)
        }
    };
    font_text(alloc, tfm, size, codes, expand, settings)
}

/// The four parts of a line.
fn parts(left: &str) -> Option<(&str, &str, &str, &str)> {
    let (name, rest) = left.split_once(' ')?;
    let (size, rest) = rest.split_once(' ')?;
    let (expand, settings) = rest.split_once(' ')?;
    Some((name, size, expand, settings))
}

/// A size as it is written: `design`, `at/` and scaled points, or `scaled/` and thousandths.
fn size_of(text: &str) -> Option<Size>
    ensures { IfSome result IsSize }
{
    if text == "design" {
        return Some(Size::Design);
    }
    let (word, number) = text.split_once('/')?;
    match word {
        "at" => at(number.parse::<i32>().ok()?),
        "scaled" => scaled(number.parse::<u32>().ok()?),
        _ => None,
    }
}

fn at(size: i32) -> Option<Size>
    ensures { IfSome result IsSize }
{
    if size >= 1 {
        Some(Size::At { size })
    } else {
        None
    }
}

fn scaled(by: u32) -> Option<Size>
    ensures { IfSome result IsSize }
{
    if by >= 1 && by <= 32768 {
        Some(Size::Scaled { by })
    } else {
        None
    }
}

/// The settings in which each code named has its share in the expansion.
fn codes_of(settings: &str) -> Option<FontCodes> {
    let mut codes = FontCodes::plain();
    for setting in settings.split(' ') {
        if let Some((code, factor)) = setting.split_once(':') {
            let code = code.parse::<u8>().ok()?;
            let factor = factor.parse::<u16>().ok()?;
            if factor > 1000 {
                return None;
            }
            codes.set_ef(code, factor);
        }
    }
    Some(codes)
}

/// The limits and the step, separated by commas, where they are in range.
fn expand_of(text: &str) -> Option<Expand> {
    let (stretch, rest) = text.split_once(',')?;
    let (shrink, step) = rest.split_once(',')?;
    limits(
        stretch.parse::<u16>().ok()?,
        shrink.parse::<u16>().ok()?,
        step.parse::<u16>().ok()?,
    )
}

fn limits(stretch: u16, shrink: u16, step: u16) -> Option<Expand> {
    if stretch > 1000 || shrink > 500 || step < 1 || step > 100 {
        return None;
    }
    if stretch % step != 0 || shrink % step != 0 || (stretch + shrink) / step > 128 {
        return None;
    }
    Some(Expand {
        stretch,
        shrink,
        step,
    })
}

/// The font's numbers, or the cause why it is refused.
fn font_text(
    alloc: Global,
    tfm: Tfm,
    size: Size,
    codes: FontCodes,
    expand: Option<Expand>,
    settings: &str,
) -> Result<Option<String>, AllocError>
    requires { IsSize size }
{
    match Font::at(alloc, tfm, size, codes, expand) {
        Ok(font) => numbers(alloc, &font, settings),
        Err(FontRefused::SizePast { size }) => Ok(Some(format!(in alloc; "past {size}")?)),
        Err(FontRefused::WidePast { code }) => Ok(Some(format!(in alloc; "wide {code}")?)),
        Err(FontRefused::WideKern { index }) => {
            Ok(Some(format!(in alloc; "wide-kern {index}")?))
        }
        Err(FontRefused::NoMemory) => Err(AllocError),
    }
}

/// The size, the spaces and the answers to the entries. None where an entry is out of form.
fn numbers(alloc: Global, font: &Font, settings: &str) -> Result<Option<String>, AllocError> {
    let size = font.size();
    let quad = font.quad();
    let extra = font.extra();
    let space = font.space();
    let width = space.width;
    let stretch = space.stretch;
    let shrink = space.shrink;
    let mut text = format!(in alloc;
        "z {size} quad {quad} space {width} {stretch} {shrink} extra {extra}"
    )?;
    for setting in settings.split(' ') {
        let Some(answer) = entry(alloc, font, setting)? else {
            return Ok(None);
        };
        text.push_str(answer.as_str())?;
    }
    Ok(Some(text))
}

/// The answer to an entry: a character, or a kern after one.
fn entry(alloc: Global, font: &Font, setting: &str) -> Result<Option<String>, AllocError> {
    if let Some(code) = number_before(setting, ':') {
        return Ok(Some(character(alloc, font, code)?));
    }
    let Some(code) = number_before(setting, '/') else {
        return Ok(None);
    };
    match fix_of(setting) {
        Some(fix) => kern(alloc, font, code, fix),
        None => Ok(None),
    }
}

/// The code before a sign.
fn number_before(setting: &str, sign: char) -> Option<u8> {
    let (code, _rest) = setting.split_once(sign)?;
    code.parse::<u8>().ok()
}

/// The fix_word of a kern.
fn fix_of(setting: &str) -> Option<i32>
    ensures { IfSome result IsFixWord }
{
    let (_code, fix) = setting.split_once('/')?;
    let fix = fix.parse::<i32>().ok()?;
    if fix >= -(1 << 24) && fix < 1 << 24 {
        Some(fix)
    } else {
        None
    }
}

/// A kern, and how it stretches and shrinks after a character. None where the font may be expanded
/// and has no such kern.
fn kern(alloc: Global, font: &Font, code: u8, fix: i32) -> Result<Option<String>, AllocError>
    requires { IsFixWord fix }
{
    if !may_expand(font, fix) {
        return Ok(None);
    }
    let kern = font.kern(fix);
    let stretch = font.kern_stretch(code, fix);
    let shrink = font.kern_shrink(code, fix);
    Ok(Some(format!(in alloc; " {kern},{stretch},{shrink}")?))
}

/// Whether the font has such a kern, or isn't expanded at all.
fn may_expand(font: &Font, fix: i32) -> bool
    ensures { result ≡ true → ForSome font.now.expand (λ e. Contains font.now.tfm.kerns fix) }
{
    match font.expand() {
        Some(_) => font.tfm().kerns.as_slice().contains(&fix),
        None => true,
    }
}

/// The sizes of a character, and what it does where the font may be expanded.
fn character(alloc: Global, font: &Font, code: u8) -> Result<String, AllocError> {
    let width = font.width(code);
    let height = font.height(code);
    let depth = font.depth(code);
    let mut text = format!(in alloc; " {width},{height},{depth}")?;
    if font.expand().is_some() {
        let stretch = font.stretch_of(code);
        let shrink = font.shrink_of(code);
        text.push_str(format!(in alloc; "/{stretch},{shrink}")?.as_str())?;
        for ratio in [300, -300, 1000, -1000, 77] {
            let step = font.step_for(code, ratio);
            text.push_str(format!(in alloc; ",{step}")?.as_str())?;
        }
    }
    Ok(text)
}
