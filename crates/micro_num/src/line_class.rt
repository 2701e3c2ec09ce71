//! How loose or tight a line is: its fitness class, in four steps from very loose to tight, which
//! neighbouring lines should not differ in by much (TeX: The Program, sections 817, 852 and 853).
ghost use Rattle.std.specs.Prelude.{◌≡◌};
ghost use Rattle.micro_num.specs.LineClass.{class_stretched, class_shrunk};

/// A line that stretches by more than its glue should.
pub const VERY_LOOSE: u8 = 0;

/// A line that stretches a good deal.
pub const LOOSE: u8 = 1;

/// A line near its natural width.
pub const DECENT: u8 = 2;

/// A line that shrinks a good deal.
pub const TIGHT: u8 = 3;

/// The class of a line that stretches with this badness.
pub fn stretched_class(badness: u16) -> u8
    ensures { result ≡ class_stretched badness }
{
    if badness > 99 {
        VERY_LOOSE
    } else if badness > 12 {
        LOOSE
    } else {
        DECENT
    }
}

/// The class of a line that doesn't stretch, with this badness.
pub fn shrunk_class(badness: u16) -> u8
    ensures { result ≡ class_shrunk badness }
{
    if badness > 12 { TIGHT } else { DECENT }
}
