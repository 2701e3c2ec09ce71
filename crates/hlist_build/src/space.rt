//! The spaces between words (TeX: The Program, sections 1041 to 1044).
ghost use Rattle.std.specs.Prelude.{◌≡◌, ◌<◌, ◌*ℤ◌, pos, Some, length};
ghost use Rattle.micro_num.specs.Rounding.{truncated};
ghost use Rattle.hlist_build.specs.Spaces.{is_set, font_space, normal_space, current_in, bounded, wider, changed_space, space_at};
ghost use Rattle.hlist_build.specs.Parts.{factor_with, factor_from};

use crate::current::Current;
use font_stock::{Font, Stock};
use micro_num::{Glue, Params, Sp, Tables, xn_over_d};

/// The font of a number as the one that text is in.
pub fn current_in(params: &Params, stock: &Stock, number: u32) -> Current
    requires { number < length stock.now }
    ensures exact { current_in params.now stock.now number ≡ Some result }
    ensures own { result.font ≡ number }
{
    let font = stock.font(number);
    let normal = normal_space(params, font);
    let extra = font.extra();
    Current {
        font: number,
        normal,
        extra,
    }
}

/// The space that a space factor doesn't change.
fn normal_space(params: &Params, font: &Font) -> Glue
    ensures { result ≡ normal_space params.now font.now }
{
    if is_set(params.spaceskip) {
        params.spaceskip
    } else {
        font_space(font)
    }
}

/// The space that a font asks for.
fn font_space(font: &Font) -> Glue
    ensures { result ≡ font_space font.now }
{
    font.space()
}

/// Whether some size of a glue isn't 0.
fn is_set(glue: Glue) -> bool
    ensures { result ≡ is_set glue }
{
    !(glue.width == 0 && glue.stretch == 0 && glue.shrink == 0)
}

/// What a space gives at a space factor.
pub fn space_at(params: &Params, current: Current, factor: u16) -> Glue
    requires { 0 < factor }
    ensures { result ≡ space_at params.now current factor }
{
    if factor == 1000 {
        current.normal
    } else if factor >= 2000 && is_set(params.xspaceskip) {
        params.xspaceskip
    } else {
        changed_space(current, factor)
    }
}

/// The normal space as a space factor changes it.
fn changed_space(current: Current, factor: u16) -> Glue
    requires { 0 < factor }
    ensures { result ≡ changed_space current factor }
{
    let width = widened(current, factor);
    let stretch = stretched(current.normal.stretch, factor);
    let shrink = shrunk(current.normal.shrink, factor);
    resized(current.normal, width, stretch, shrink)
}

/// The width of the space at a space factor, in bounds.
fn widened(current: Current, factor: u16) -> Sp
    ensures { result ≡ bounded (wider current factor) }
{
    bounded(wider(current, factor))
}

/// The stretch of the space at a space factor, in bounds.
fn stretched(stretch: Sp, factor: u16) -> Sp
    ensures { result ≡ bounded (truncated (stretch *ℤ pos factor) (pos 1000)) }
{
    bounded(xn_over_d(i64::from(stretch), i64::from(factor), 1000))
}

/// The shrink of the space at a space factor, in bounds.
fn shrunk(shrink: Sp, factor: u16) -> Sp
    requires { 0 < factor }
    ensures { result ≡ bounded (truncated (shrink *ℤ pos 1000) (pos factor)) }
{
    bounded(xn_over_d(i64::from(shrink), 1000, i64::from(factor)))
}

/// The width of the normal space, with the extra space from a space factor of 2000 on.
fn wider(current: Current, factor: u16) -> i64
    ensures { result ≡ wider current factor }
{
    let width = i64::from(current.normal.width);
    if factor >= 2000 {
        width + i64::from(current.extra)
    } else {
        width
    }
}

/// A glue with other sizes, of the same order.
fn resized(glue: Glue, width: Sp, stretch: Sp, shrink: Sp) -> Glue
    ensures { result ≡ record glue { width = width; stretch = stretch; shrink = shrink } }
{
    Glue {
        width,
        stretch,
        order: glue.order,
        shrink,
    }
}

/// A size brought into ±(2^30 - 1).
fn bounded(size: i64) -> Sp
    ensures { result ≡ bounded size }
{
    size.clamp(-1073741823, 1073741823) as Sp
}

/// The space factor behind a character with this space factor code.
fn factor_with(factor: u16, code: u16) -> u16
    requires { 0 < factor }
    ensures exact { result ≡ factor_with factor code }
    ensures positive { 0 < result }
{
    if code == 0 {
        factor
    } else if code <= 1000 {
        code
    } else if factor < 1000 {
        1000
    } else {
        code
    }
}

/// The space factor behind some characters.
pub fn factor_from(tables: &Tables, factor: u16, codes: &[u8]) -> u16
    requires { 0 < factor }
    ensures exact { result ≡ factor_from tables.now factor codes.now }
    ensures positive { 0 < result }
{
    let mut now = factor;
    for code in codes {
        now = factor_with(now, tables.sfcode[*code as usize]);
    }
    now
}
