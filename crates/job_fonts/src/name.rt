//! The name of a font's file.
ghost use Rattle.std.specs.Prelude.{◌≡◌, IfOk, string_bytes};
ghost use Rattle.job_fonts.specs.Reads.{file_of};
ghost use Rattle.job_text.specs.Fits.{IsFileName};

use job_text::FontDecl;
use micro_num::NoMemory;
use std::alloc::Global;

/// The name of the file of a declaration, which is that of the font and `.tfm`.
pub fn file_name(alloc: Global, decl: &FontDecl) -> Result<String, NoMemory>
    requires { IsFileName decl.now.name }
    ensures { IfOk result (λ name. string_bytes name ≡ file_of decl.now) }
{
    let mut name = String::from_utf8_lossy(alloc, decl.name.as_slice())?;
    name.push_str(".tfm")?;
    Ok(name)
}
