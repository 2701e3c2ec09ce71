//! The font of a declaration, read from the bytes of its file.
ghost use Rattle.std.specs.Prelude.{◌≡◌, ℕ, Ok, Err, IfOk};
ghost use Rattle.font_stock.specs.Sizes.{IsSize};
ghost use Rattle.font_stock.specs.declared.font.Font.{Font};
ghost use Rattle.job_fonts.specs.Reads.{IsFontRead, IsFontFault, IfFault, UnlessNoMemory};
ghost use Rattle.job_fonts.specs.declared.fault.FontFault.TheVariants.{At};
ghost use Rattle.job_fonts.specs.declared.fault.FontFaultKind.{FontFaultKind};

use crate::fault::FontFault;
use font_stock::Font;
use job_text::FontDecl;
use std::alloc::Global;
use tfm_read::read_tfm;

/// Reads the file, and makes the font.
fn font_of(alloc: Global, decl: &FontDecl, bytes: &[u8]) -> Result<Font, FontFault>
    requires { IsSize decl.now.size }
    ensures font { IfOk result (IsFontRead decl.now bytes.now) }
    ensures fault { IfFault result (IsFontFault decl.now bytes.now) }
{
    let tfm = read_tfm(alloc, bytes)?;
    let font = Font::at(alloc, tfm, decl.size, decl.codes.copy(), decl.expand)?;
    Ok(font)
}

/// The font of a declaration, of which the bytes are the file, or its first fault.
///
/// `At` comes exactly where the file, then the size, then a character's width, then a kern isn't as
/// it has to be. `NoMemory` comes only where memory runs out.
pub fn read_font(alloc: Global, decl: &FontDecl, bytes: &[u8]) -> Result<Font, FontFault>
    requires { IsSize decl.now.size }
    ensures font { IfOk result (IsFontRead decl.now bytes.now) }
    ensures fault { IfFault result (IsFontFault decl.now bytes.now) }
    // A font is read, unless memory runs out, and as no other font.
    ensures only { (font : Font) → IsFontRead decl.now bytes.now font
        → UnlessNoMemory result (result ≡ Ok font) }
    // The first fault is the answer, unless memory runs out.
    ensures first { (kind : FontFaultKind) (word : ℕ) → IsFontFault decl.now bytes.now kind word
        → UnlessNoMemory result (result ≡ Err (At kind word)) }
{
    font_of(alloc, decl, bytes)
}
