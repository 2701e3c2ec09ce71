//! Reads the fonts of a job, in the order of declaration.
ghost use Rattle.std.specs.Prelude.{◌≡◌, ◌<◌, length, IfOk, IfErr};
ghost use Rattle.font_stock.specs.Sizes.{IsSize};
ghost use Rattle.job_text.specs.Fits.{IsFileName, JobFits};
ghost use Rattle.micro_document.specs.Document.{font_answer};
ghost use Rattle.micro_document.specs.Steps.{FontGoesOn, FontStops, FontsGoOn, FontsStop};

use crate::files::read_file;
use crate::stop::Stop;
use font_stock::{Font, Stock};
use job_fonts::{FontFault, file_name, read_font};
use job_text::{FontDecl, Job};
use micro_texts::Answer;
use outside_io::Shelf;
use std::alloc::Global;

/// How a run ends where the font of a number can't be had.
pub(crate) fn font_answer(number: u32, fault: FontFault) -> Answer
    ensures { result ≡ font_answer number fault }
{
    match fault {
        FontFault::At { kind, word } => Answer::Font {
            font: number,
            kind,
            word,
        },
        FontFault::NoMemory => Answer::NoMemory,
    }
}

/// The font of a number and its declaration.
fn one_font<S: Shelf>(
    alloc: Global,
    number: u32,
    decl: &FontDecl,
    shelf: &mut S,
) -> Result<Font, Stop>
    requires few { number < 32 }
    requires name { IsFileName decl.now.name }
    requires size { IsSize decl.now.size }
    ensures goes_on { IfOk result (λ font.
        FontGoesOn number decl.now (S.state shelf.old) (S.state shelf.new) font) }
    ensures stops { IfErr result (λ stop.
        FontStops number decl.now (S.state shelf.old) (S.state shelf.new) stop) }
{
    let Ok(name) = file_name(alloc, decl) else {
        return Err(Stop::of(Answer::NoMemory));
    };
    // Named arms and not `?`, since a clause speaks of the shelf at these errors.
    let bytes = match read_file(alloc, name.as_str(), number + 1, shelf) {
        Ok(bytes) => bytes,
        Err(stop) => return Err(stop),
    };
    match read_font(alloc, decl, bytes.as_slice()) {
        Ok(font) => Ok(font),
        Err(fault) => Err(Stop::of(font_answer(number, fault))),
    }
}

/// The fonts of a job, or the first that can't be had.
pub(crate) fn read_fonts<S: Shelf>(alloc: Global, job: &Job, shelf: &mut S) -> Result<Stock, Stop>
    requires { JobFits job.now }
    ensures goes_on { IfOk result (λ stock.
        FontsGoOn job.now (S.state shelf.old) (S.state shelf.new) stock) }
    ensures count { IfOk result (λ stock. length stock ≡ length job.now.fonts) }
    ensures stops { IfErr result (λ stop.
        FontsStop job.now (S.state shelf.old) (S.state shelf.new) stop) }
{
    let mut fonts = Vec::new(alloc);
    for decl in job.fonts.as_slice() {
        // Named arms and not `?`, since a clause speaks of the shelf at these errors.
        let font = match one_font(alloc, fonts.len() as u32, decl, shelf) {
            Ok(font) => font,
            Err(stop) => return Err(stop),
        };
        let Ok(()) = fonts.push(font) else {
            return Err(Stop::of(Answer::NoMemory));
        };
    }
    Ok(Stock::make(fonts))
}
