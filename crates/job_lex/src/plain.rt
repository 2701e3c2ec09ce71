//! Plain text: bytes that stand for themselves and single blanks between them, each a token.
//!
//! Most of a job is plain text, and there a byte and the one behind it tell the token, with no look
//! for the end of a gap or of a word (TeX: The Program, sections 343 to 348).
ghost use Rattle.std.specs.Prelude.{◌≡◌, ◌<◌, ◌^◌, length, IfSome};
ghost use Rattle.job_lex.specs.Tokens.{category_at, IsToken};
ghost use Rattle.job_lex.specs.declared.category.Category.TheVariants.{Blank};

use crate::category::{Category, category_of};
use crate::lexer::one;
use crate::token::{Tok, TokKind};

/// The token of one byte that begins at a place, where this byte and the next tell it.
#[inline(always)]
pub(crate) fn plain_at(bytes: &[u8], place: usize) -> Option<Tok>
    requires small { length bytes.now < 2 ^ 32 }
    requires inside { place < length bytes.now }
    ensures from { IfSome result (λ tok. tok.from ≡ place) }
    ensures token { IfSome result (λ tok. IsToken bytes.now tok) }
{
    match category_of(bytes[place]) {
        Category::Letter | Category::Other => Some(one(TokKind::Char, place)),
        Category::Blank => lone_blank_at(bytes, place),
        _ => None,
    }
}

/// The space that a blank is, where another byte comes behind it that goes on no gap.
#[inline(always)]
fn lone_blank_at(bytes: &[u8], place: usize) -> Option<Tok>
    requires small { length bytes.now < 2 ^ 32 }
    requires inside { place < length bytes.now }
    requires blank { category_at bytes.now place ≡ Blank }
    ensures from { IfSome result (λ tok. tok.from ≡ place) }
    ensures token { IfSome result (λ tok. IsToken bytes.now tok) }
{
    let behind = place + 1;
    if behind >= bytes.len() {
        return None;
    }
    match category_of(bytes[behind]) {
        Category::Blank | Category::Comment => None,
        _ => Some(one(TokKind::Space, place)),
    }
}
