//! Lines of different widths, and paragraphs that are to have more or fewer lines.

use crate::fixture::{broken, gave};
use std::test::Fail;

/// Its end is item 16.
const TEXT: &[u8] = b"aa bb cc dd ee";

#[test]
fn lines_hang(rt: HostRuntime) -> Result<(), Fail> {
    let alloc = rt.alloc();
    let later = broken(alloc, b"\\hsize=35pt \\hangindent=12.5pt", TEXT)?;
    assert!(rt; gave(&later, 1, 200, &[8, 16]));
    let first = broken(
        alloc,
        b"\\hsize=35pt \\hangindent=12.5pt \\hangafter=-1",
        TEXT,
    )?;
    assert!(rt; gave(&first, 1, 200, &[5, 16]));
    let right = broken(alloc, b"\\hsize=35pt \\hangindent=-12.5pt", TEXT)?;
    assert!(rt; gave(&right, 1, 200, &[8, 16]));
    Ok(())
}

#[test]
fn lines_have_a_shape(rt: HostRuntime) -> Result<(), Fail> {
    let found = broken(rt.alloc(), b"\\parshape 2 0pt 22.5pt 5pt 35pt", TEXT)?;
    assert!(rt; gave(&found, 1, 200, &[5, 16]));
    Ok(())
}

/// With two lines more or one fewer the second pass comes as near as it can.
#[test]
fn looseness_asks_for_other_numbers_of_lines(rt: HostRuntime) -> Result<(), Fail> {
    let alloc = rt.alloc();
    let text = b"aa bb cc";
    let none = b"\\hsize=25pt \\rightskip=0pt plus 1fil \\looseness=0";
    assert!(rt; gave(&broken(alloc, none, text)?, 1, 200, &[5, 10]));
    let one = b"\\hsize=25pt \\rightskip=0pt plus 1fil \\looseness=1";
    assert!(rt; gave(&broken(alloc, one, text)?, 1, 300, &[2, 5, 10]));
    let two = b"\\hsize=25pt \\rightskip=0pt plus 1fil \\looseness=2";
    assert!(rt; gave(&broken(alloc, two, text)?, 2, 300, &[2, 5, 10]));
    let fewer = b"\\hsize=25pt \\rightskip=0pt plus 1fil \\looseness=-1";
    assert!(rt; gave(&broken(alloc, fewer, text)?, 2, 200, &[2, 10]));
    Ok(())
}
