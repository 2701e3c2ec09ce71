//! Jobs that several tests set. Their fonts are all named `tiny10`.
use std::alloc::{AllocError, Global};

/// Three letters on a line of 100pt.
pub const THREE_LETTERS: &[u8] = b"\\font\\f=tiny10 \\f\n\\hsize=100pt\n\\noindent abc\n";

/// A paragraph of four words, whose first line is expanded.
pub const EXPANDED: &[u8] = b"\\font\\f=tiny10 \\f\n\\hsize=24pt \\pdffontexpand\\f 20 20 1 \
    \\pdfadjustspacing=2\n\\noindent aa bb cc dd\n";

/// The same words without expansion, which the second pass breaks.
pub const FOUR_WORDS: &[u8] = b"\\font\\f=tiny10 \\f\n\\hsize=24pt\n\\noindent aa bb cc dd\n";

/// A paragraph that the second pass breaks at a hyphen.
pub const HYPHENATED: &[u8] = b"\\font\\f=tiny10 \\f\n\\hsize=27.5pt \\righthyphenmin=2 \
    \\hyphenation{bb-bb}\n\\noindent aa bbbb\n";

/// The expanded paragraph behind one whose first line is shrunk.
pub const NARROW_AND_WIDE: &[u8] = b"\\font\\f=tiny10 \\f\n\\hsize=22pt \\pdffontexpand\\f 20 20 1 \
    \\pdfadjustspacing=2\n\\noindent aa bb cc dd\n\n\\hsize=24pt \\noindent aa bb cc dd\n";

/// Two paragraphs that use the same instance.
pub const SHARING: &[u8] = b"\\font\\f=tiny10 \\f\n\\hsize=24pt \\pdffontexpand\\f 20 20 1 \
    \\pdfadjustspacing=2\n\\noindent aa bb cc dd\n\n\\noindent aa bb cc dd\n";

/// Four paragraphs of one line.
pub const FOUR_LINES: &[u8] = b"\\font\\f=tiny10 \\f\n\\hsize=100pt\n\\noindent abc\n\n\
    \\noindent abc\n\n\\noindent abc\n\n\\noindent abc\n";

/// Paragraphs of which the second and the last have a character that the font lacks.
pub const TWO_FAULTS: &[u8] = b"\\font\\f=tiny10 \\f\na\n\n\\char200 a\n\na\n\na\n\n\\char200\n";

const SETTINGS: &[u8] = b"\\font\\f=tiny10 \\font\\g=tiny10 at 12pt \\f\n\
    \\pdffontexpand\\f 20 20 1 \\pdffontexpand\\g 20 20 1\n\
    \\patterns{hy3ph he2n hena4 hen5at 1na n2at 1tio 2io}\n\
    \\pdfprotrudechars=2 \\pdfadjustspacing=2 \\hsize=345pt \\tolerance=2000\n";

/// Twenty words, of which four are in the other font.
const SENTENCE: &[u8] = b"a program that looks at a whole paragraph takes the places, \
    {\\g which give the best,} all of them together, hyphenation helps. ";

/// A job of three paragraphs of eighty words, in two fonts.
pub fn long_job(alloc: Global) -> Result<Vec<u8>, AllocError> {
    let mut job = Vec::from_slice(alloc, SETTINGS)?;
    for paragraph in 0..3u32 {
        for _word in 0..paragraph {
            job.extend_from_slice(b"or ")?;
        }
        for _sentence in 0..4u32 {
            job.extend_from_slice(SENTENCE)?;
        }
        job.extend_from_slice(b"\n\n")?;
    }
    Ok(job)
}
