//! Gaps between words: blanks and comments (TeX: The Program, sections 343 to 354). One with an
//! empty line ends a paragraph.
ghost use Rattle.std.specs.Prelude.{◌≡◌, ℕ, ◌<◌, ◌≤◌, ◌+◌, ◌^◌, ◌⊎◌, length, slice_index};
ghost use Rattle.std.specs.Prelude.{MatchBool};
ghost use Rattle.job_lex.specs.Tokens.{category_at, HasNoLineFeed, IsGap, HasEmptyLine, IsOfKind};
ghost use Rattle.job_lex.specs.declared.category.Category.TheVariants.{Blank, Comment};

use crate::category::{Category, category_of};
use crate::token::{Tok, TokKind};

/// The token of the gap that begins at a place, with a blank or a comment.
pub fn gap_at(bytes: &[u8], from: usize) -> Tok
    requires small { length bytes.now < 2 ^ 32 }
    requires inside { from < length bytes.now }
    requires begins { (category_at bytes.now from ≡ Blank)
        ⊎ (category_at bytes.now from ≡ Comment) }
    ensures begin { result.from ≡ from }
    ensures is { IsOfKind bytes.now result.from result.to result.kind }
{
    let to = gap_end(bytes, from);
    let kind = gap_kind(bytes, from, to);
    Tok {
        kind,
        from: from as u32,
        to: to as u32,
    }
}

/// The kind of a gap.
fn gap_kind(bytes: &[u8], from: usize, to: usize) -> TokKind
    requires { IsGap bytes.now from to }
    ensures { IsOfKind bytes.now from to result }
{
    if has_empty_line(bytes, from, to) {
        TokKind::Par
    } else if category_of(bytes[from]) == Category::Blank {
        TokKind::Space
    } else {
        TokKind::Skip
    }
}

/// The place behind the gap that begins at a place.
fn gap_end(bytes: &[u8], from: usize) -> usize
    requires inside { from < length bytes.now }
    requires begins { (category_at bytes.now from ≡ Blank)
        ⊎ (category_at bytes.now from ≡ Comment) }
    ensures { IsGap bytes.now from result }
{
    let mut to = from;
    while to < bytes.len() {
        match category_of(bytes[to]) {
            Category::Blank => to += 1,
            // The line feed that ends the comment is the blank that comes next.
            Category::Comment => to = line_end(bytes, to),
            _ => break,
        }
    }
    to
}

/// The place of the first line feed from a place on, or the end of the file.
fn line_end(bytes: &[u8], from: usize) -> usize
    requires { from ≤ length bytes.now }
    ensures after { from ≤ result }
    ensures within { result ≤ length bytes.now }
    ensures before { HasNoLineFeed bytes.now from result }
    ensures found { result < length bytes.now → slice_index bytes.now result ≡ 10 }
{
    let mut place = from;
    while place < bytes.len() && bytes[place] != b'\n' {
        place += 1;
    }
    place
}

/// Whether two line feeds stand there with only tabs, carriage returns and spaces between them.
fn has_empty_line(bytes: &[u8], from: usize, to: usize) -> bool
    requires ordered { from ≤ to }
    requires within { to ≤ length bytes.now }
    ensures { MatchBool result (HasEmptyLine bytes.now from to) (¬ HasEmptyLine bytes.now from to) }
{
    let mut after_line = false;
    for place in from..to {
        match bytes[place] {
            b'\n' if after_line => return true,
            b'\n' => after_line = true,
            b'\t' | b'\r' | b' ' => {}
            _ => after_line = false,
        }
    }
    false
}
