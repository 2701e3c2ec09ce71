//! The categories of bytes, which are fixed (TeX: The Program, section 207).
ghost use Rattle.std.specs.Prelude.{◌≡◌};
ghost use Rattle.job_lex.specs.Category.{category};

/// What a byte may be part of: its category, named as TeX's category codes are (TeX: The Program,
/// section 207).
#[derive(Clone, Copy, Debug, PartialEq, Eq)]
pub enum Category {
    /// The backslash, which begins a command.
    Escape,
    /// `{`.
    BeginGroup,
    /// `}`.
    EndGroup,
    /// `~`, the tie.
    Active,
    /// `%`, which begins a comment.
    Comment,
    /// Tab, line feed, carriage return and space.
    Blank,
    /// A to Z and a to z.
    Letter,
    /// A byte that stands for itself and is no letter.
    Other,
    /// `$`, `&`, `#`, `^` and `_`, which may stand behind a backslash alone.
    Special,
    /// A control byte, which may stand in a comment alone.
    Invalid,
}

/// The category of a byte. Letters, which most bytes are, come first.
#[tactic(auto, unfolding(crate::specs::Category::category))]
#[inline(always)]
pub fn category_of(byte: u8) -> Category
    ensures { result ≡ category byte }
{
    if byte.is_ascii_alphabetic() {
        return Category::Letter;
    }
    match byte {
        b'\t' | b'\n' | b'\r' | b' ' => Category::Blank,
        b'%' => Category::Comment,
        b'\\' => Category::Escape,
        b'{' => Category::BeginGroup,
        b'}' => Category::EndGroup,
        b'~' => Category::Active,
        b'#' | b'$' | b'&' | b'^' | b'_' => Category::Special,
        0..=31 | 127 => Category::Invalid,
        _ => Category::Other,
    }
}
