//! The fonts of a job while it is read: each change of one leaves the others as they are.
ghost use Rattle.std.specs.Prelude.{◌≡◌, ◌+◌, ◌<◌, ◌≤◌, ◌++◌, ◌∷◌, [], length, OnOk, vec_len};
ghost use Rattle.std.specs.Prelude.{slice_get};
ghost use Rattle.font_stock.specs.Ranges.{IsHang};
ghost use Rattle.job_text.specs.Fonts.{fonts_of, limits_of, new_font, change_font, with_left};
ghost use Rattle.job_text.specs.Fonts.{with_right, with_factor, with_hyphen, with_expand};
ghost use Rattle.job_text.specs.Fonts.{is_expanded};

use crate::font_decl::FontDecl;
use font_stock::{Expand, FontCodes, Size};
use items::Items;
use micro_num::NoMemory;

/// One more font, with nothing said of its characters.
pub(crate) fn push_font(
    fonts: &mut Vec<FontDecl>,
    name: Items<u8>,
    size: Size,
) -> Result<(), NoMemory>
    ensures pushed { OnOk result
        (fonts_of fonts.new.items ≡ fonts_of fonts.old.items ++ new_font name size ∷ []) }
    ensures count { OnOk result (vec_len fonts.new ≡ vec_len fonts.old + 1) }
{
    let font = FontDecl {
        name,
        size,
        codes: FontCodes::plain(),
        expand: None,
    };
    fonts.push(font)?;
    Ok(())
}

/// Whether a font's expansion was declared.
pub(crate) fn is_expanded(fonts: &[FontDecl], font: u32) -> bool
    requires { font < length fonts.now }
    ensures { result ≡ is_expanded (slice_get (fonts_of fonts.now) font) }
{
    fonts[font as usize].expand.is_some()
}

/// How far a character hangs into the left margin.
pub(crate) fn set_left(fonts: &mut Vec<FontDecl>, font: u32, code: u8, hang: i16)
    requires number { font < vec_len fonts.old }
    requires range { IsHang hang }
    ensures changed { fonts_of fonts.new.items ≡ change_font (fonts_of fonts.old.items) font
        (with_left code hang) }
    ensures count { vec_len fonts.new ≡ vec_len fonts.old }
{
    fonts[font as usize].codes.left[code as usize] = hang;
}

/// How far a character hangs into the right margin.
pub(crate) fn set_right(fonts: &mut Vec<FontDecl>, font: u32, code: u8, hang: i16)
    requires number { font < vec_len fonts.old }
    requires range { IsHang hang }
    ensures changed { fonts_of fonts.new.items ≡ change_font (fonts_of fonts.old.items) font
        (with_right code hang) }
    ensures count { vec_len fonts.new ≡ vec_len fonts.old }
{
    fonts[font as usize].codes.right[code as usize] = hang;
}

/// A character's share in the expansion.
pub(crate) fn set_factor(fonts: &mut Vec<FontDecl>, font: u32, code: u8, factor: u16)
    requires number { font < vec_len fonts.old }
    requires range { factor ≤ 1000 }
    ensures changed { fonts_of fonts.new.items ≡ change_font (fonts_of fonts.old.items) font
        (with_factor code factor) }
    ensures count { vec_len fonts.new ≡ vec_len fonts.old }
{
    fonts[font as usize].codes.ef[code as usize] = factor;
}

/// The code of the hyphen character.
pub(crate) fn set_hyphen(fonts: &mut Vec<FontDecl>, font: u32, hyphen: i32)
    requires { font < vec_len fonts.old }
    ensures changed { fonts_of fonts.new.items ≡ change_font (fonts_of fonts.old.items) font
        (with_hyphen hyphen) }
    ensures count { vec_len fonts.new ≡ vec_len fonts.old }
{
    fonts[font as usize].codes.hyphen = hyphen;
}

/// How far a font may be expanded.
pub(crate) fn set_expand(fonts: &mut Vec<FontDecl>, font: u32, expand: Expand)
    requires { font < vec_len fonts.old }
    ensures changed { fonts_of fonts.new.items ≡ change_font (fonts_of fonts.old.items) font
        (with_expand (limits_of expand)) }
    ensures count { vec_len fonts.new ≡ vec_len fonts.old }
{
    fonts[font as usize].expand = Some(expand);
}
