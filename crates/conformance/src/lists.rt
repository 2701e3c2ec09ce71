//! The cases of horizontal lists and of hyphenated lists: the list of each paragraph of a job, or
//! its first fault; the cases of fits, which ask about the lines of these lists; and the cases of
//! breaks and of lines, which ask how they are broken, and packed.
ghost use Rattle.std.specs.Prelude.{All};
ghost use Rattle.font_stock.specs.Sizes.{IsSize};
ghost use Rattle.hlist.specs.Bounds.{IsSmall, IsInBounds, IsListOf};
ghost use Rattle.break_rule.specs.Over.{Share};

use crate::breaks_text::breaks_text;
use crate::bytes::bytes_of;
use crate::fits::{Lines, fits_text};
use crate::items_text::items_text;
use crate::set_lines::lines_text as set_lines_text;
use crate::tfm::font_bytes;
use font_stock::{Font, FontRefused, Stock};
use hlist::{HList, small_lists_are_in_bounds};
use hlist_build::{ParFault, build};
use hlist_hyph::hyphenated;
use job_text::{FontDecl, Job, JobFault};
use liang_hyph::Patterns;
use list_fonts::{fonts_of_a_paragraph_expand_alike, lists_of_the_same_fonts_expand_alike};
use micro_num::{NoMemory, Par, Tables};
use std::alloc::{AllocError, Global};
use std::rt::Files;
use test_jobs::name_fonts;
use tfm_read::{TfmFault, read_tfm};

/// Which lists a case is about.
#[derive(Clone, Copy, Debug, PartialEq, Eq)]
pub enum Form {
    /// The lists of paragraphs as they are built.
    Built,
    /// Their hyphenated lists.
    Hyphenated,
}

/// What a case asks of its lists.
#[derive(Clone, Copy, Debug, PartialEq, Eq)]
pub enum Asked {
    /// Their items.
    Items,
    /// Places and lines.
    Fits { lines: Lines },
    /// How the lists that are built are broken.
    Breaks,
    /// The lines that they are broken into, packed.
    Lines,
}

/// What some lines measure and how they fit, in the lists of a job; `left` is
/// `EMERGENCY FORM NUMBER` and the job.
pub fn fits_answer<R: Files>(
    rt: &R,
    alloc: Global,
    left: &str,
) -> Result<Option<String>, AllocError> {
    match asked_fits(left) {
        Some((form, lines, job)) => answer(rt, alloc, form, Asked::Fits { lines }, job),
        None => Ok(None),
    }
}

/// The lists and the lines that a case of fits is about, and its job.
fn asked_fits(left: &str) -> Option<(Form, Lines, &str)> {
    let (emergency, rest) = left.split_once(' ')?;
    let (form, rest) = rest.split_once(' ')?;
    let (number, job) = rest.split_once(' ')?;
    let emergency = match emergency {
        "0" => false,
        "1" => true,
        _ => return None,
    };
    let form = match form {
        "built" => Form::Built,
        "hyphenated" => Form::Hyphenated,
        _ => return None,
    };
    let number = number.parse::<u32>().ok()?;
    Some((form, Lines { emergency, number }, job))
}

/// The lists of the job that the bytes spell which `left` gives in hexadecimal, or why there are
/// none.
pub fn answer<R: Files>(
    rt: &R,
    alloc: Global,
    form: Form,
    asked: Asked,
    left: &str,
) -> Result<Option<String>, AllocError> {
    let Some(bytes) = bytes_of(alloc, left)? else {
        return Ok(None);
    };
    if bytes.len() >= 1 << 32 {
        return Ok(None);
    }
    match job_text::read_job(alloc, &bytes) {
        Ok(job) => job_answer(rt, alloc, form, asked, job),
        Err(JobFault::At { offset, kind }) => {
            let number = kind.number();
            Ok(Some(format!(in alloc; "job {number} {offset}")?))
        }
        Err(JobFault::NoMemory) => Err(AllocError),
    }
}

/// The lists of a job, or why a font of it is refused.
fn job_answer<R: Files>(
    rt: &R,
    alloc: Global,
    form: Form,
    asked: Asked,
    job: Job,
) -> Result<Option<String>, AllocError>
    requires { All (λ font. IsSize font.size) job.fonts }
{
    let Job {
        fonts,
        tables,
        patterns,
        exceptions,
        pars,
    } = job;
    let table = match Patterns::make(alloc, patterns.as_slice(), exceptions.as_slice()) {
        Ok(table) => table,
        Err(NoMemory) => return Err(AllocError),
    };
    match fonts_of(rt, alloc, fonts.into_vec())? {
        Ok(fonts) => {
            if fonts.len() > 32 {
                return Ok(None);
            }
            let stock = Stock::make(fonts);
            lists_text(alloc, form, asked, pars.as_slice(), &tables, &table, &stock)
        }
        Err(refused) => Ok(Some(refused)),
    }
}

/// The fonts of a job, or the answer where one is refused.
fn fonts_of<R: Files>(
    rt: &R,
    alloc: Global,
    decls: Vec<FontDecl>,
) -> Result<Result<Vec<Font>, String>, AllocError>
    requires { All (λ font. IsSize font.size) decls.items }
{
    let mut fonts = Vec::new(alloc);
    for decl in decls {
        match font_of(rt, alloc, fonts.len(), decl)? {
            Ok(font) => fonts.push(font)?,
            Err(refused) => return Ok(Err(refused)),
        }
    }
    Ok(Ok(fonts))
}

/// A font that a job declares, or the answer where it is refused.
fn font_of<R: Files>(
    rt: &R,
    alloc: Global,
    number: usize,
    decl: FontDecl,
) -> Result<Result<Font, String>, AllocError>
    requires { IsSize decl.size }
{
    let FontDecl {
        name,
        size,
        codes,
        expand,
    } = decl;
    let Ok(name) = String::from_utf8(name.into_vec()) else {
        return Ok(Err(format!(in alloc; "absent {number}")?));
    };
    let Ok(bytes) = font_bytes(rt, alloc, name.as_str()) else {
        return Ok(Err(format!(in alloc; "absent {number}")?));
    };
    let tfm = match read_tfm(alloc, &bytes) {
        Ok(tfm) => tfm,
        Err(TfmFault::NoMemory) => return Err(AllocError),
        Err(TfmFault::At { kind, word }) => {
            let kind = kind.number();
            return Ok(Err(format!(in alloc; "font {number} {kind} {word}")?));
        }
    };
    let kind = match Font::at(alloc, tfm, size, codes, expand) {
        Ok(font) => return Ok(Ok(font)),
        Err(FontRefused::SizePast { .. }) => 11,
        Err(FontRefused::WidePast { .. }) => 12,
        Err(FontRefused::WideKern { .. }) => 13,
        Err(FontRefused::NoMemory) => return Err(AllocError),
    };
    Ok(Err(format!(in alloc; "font {number} {kind} 0")?))
}

/// The lists of some paragraphs, joined by `; `.
fn lists_text(
    alloc: Global,
    form: Form,
    asked: Asked,
    pars: &[Par],
    tables: &Tables,
    patterns: &Patterns,
    stock: &Stock,
) -> Result<Option<String>, AllocError> {
    if asked == Asked::Lines {
        return set_lines_text(alloc, pars, tables, patterns, stock);
    }
    if pars.is_empty() {
        return Ok(Some(String::from_str(alloc, "none")?));
    }
    let mut text = String::new(alloc);
    for par in pars {
        if !text.is_empty() {
            text.push_str("; ")?;
        }
        let Some(list) = list_text(alloc, form, asked, par, tables, patterns, stock)? else {
            return Ok(None);
        };
        text.push_str(list.as_str())?;
    }
    Ok(Some(text))
}

/// The items of a list, or what is asked of its lines.
fn told(
    alloc: Global,
    asked: Asked,
    list: &HList,
    par: &Par,
    stock: &Stock,
) -> Result<Option<String>, AllocError>
    requires bounds { IsInBounds list.now }
    requires own { IsListOf stock.now list.now }
    requires share { Share par.now.params stock.now list.now.items }
{
    match asked {
        Asked::Fits { lines } => fits_text(alloc, lines, list, par, stock),
        _ => Ok(Some(items_text(alloc, list.items.as_slice())?)),
    }
}

/// How a list is broken, or else what is asked of it as it is built, or hyphenated.
fn shown(
    alloc: Global,
    form: Form,
    asked: Asked,
    list: &HList,
    par: &Par,
    tables: &Tables,
    patterns: &Patterns,
    stock: &Stock,
) -> Result<Option<String>, AllocError>
    requires small { IsSmall list.now }
    requires own { IsListOf stock.now list.now }
    requires share { Share par.now.params stock.now list.now.items }
{
    if asked == Asked::Breaks {
        return breaks_text(alloc, par, list, tables, patterns, stock);
    }
    small_lists_are_in_bounds();
    lists_of_the_same_fonts_expand_alike();
    match form {
        Form::Built => told(alloc, asked, list, par, stock),
        Form::Hyphenated => match hyphenated(alloc, list, &par.params, tables, patterns, stock) {
            Ok(made) => told(alloc, asked, &made, par, stock),
            Err(NoMemory) => Err(AllocError),
        },
    }
}

/// The list of a paragraph, or its first fault. None where it names a font that isn't there.
fn list_text(
    alloc: Global,
    form: Form,
    asked: Asked,
    par: &Par,
    tables: &Tables,
    patterns: &Patterns,
    stock: &Stock,
) -> Result<Option<String>, AllocError> {
    if !name_fonts(stock, par.parts.as_slice()) {
        return Ok(None);
    }
    fonts_of_a_paragraph_expand_alike();
    match build(alloc, par, tables, stock) {
        Ok(list) => shown(alloc, form, asked, &list, par, tables, patterns, stock),
        Err(ParFault::NoMemory) => Err(AllocError),
        Err(fault) => Ok(Some(fault_text(alloc, fault)?)),
    }
}

/// The first fault of a paragraph.
pub fn fault_text(alloc: Global, fault: ParFault) -> Result<String, AllocError> {
    match fault {
        ParFault::MissingChar { offset } => format!(in alloc; "fault 1 {offset}"),
        ParFault::LigTooLong { offset } => format!(in alloc; "fault 2 {offset}"),
        ParFault::TooManyItems => String::from_str(alloc, "fault 3"),
        ParFault::MixedExpansion { font } => format!(in alloc; "fault 4 {font}"),
        ParFault::OutOfRange { line } => format!(in alloc; "fault 5 {line}"),
        ParFault::NoMemory => Err(AllocError),
    }
}
