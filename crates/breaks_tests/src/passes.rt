//! Which pass is taken, and what it gives.

use crate::fixture::{broken, gave};
use std::test::Fail;

#[test]
fn a_paragraph_that_fits_is_broken_in_the_first_pass(rt: HostRuntime) -> Result<(), Fail> {
    let alloc = rt.alloc();
    let one = broken(alloc, b"\\hsize=15pt", b"abc")?;
    assert!(rt; gave(&one, 1, 100, &[5]));
    let two = broken(
        alloc,
        b"\\hsize=25pt \\rightskip=0pt plus 1fil",
        b"aa bb cc",
    )?;
    assert!(rt; gave(&two, 1, 200, &[5, 10]));
    Ok(())
}

#[test]
fn an_overfull_paragraph_is_rescued_in_the_second(rt: HostRuntime) -> Result<(), Fail> {
    let found = broken(rt.alloc(), b"\\hsize=10pt", b"abc")?;
    assert!(rt; gave(&found, 2, 0, &[5]));
    Ok(())
}

#[test]
fn a_line_worse_than_pretolerance_takes_the_second(rt: HostRuntime) -> Result<(), Fail> {
    let alloc = rt.alloc();
    let text = b"aa bb cc dd";
    let plain = broken(alloc, b"\\hsize=24pt", text)?;
    assert!(rt; gave(&plain, 2, 43124, &[5, 13]));
    let blind = broken(alloc, b"\\hsize=24pt \\adjdemerits=0", text)?;
    assert!(rt; gave(&blind, 2, 33124, &[5, 13]));
    let less = broken(alloc, b"\\hsize=24pt \\adjdemerits=-1", text)?;
    assert!(rt; gave(&less, 2, 33123, &[5, 13]));
    Ok(())
}

#[test]
fn a_negative_pretolerance_leaves_the_first_out(rt: HostRuntime) -> Result<(), Fail> {
    let settings = b"\\hsize=20pt \\pretolerance=-1 \\tolerance=10000";
    let text = b"aaa aaa aaa aaa aaa aaa aaa aaa aaa aaa aaa aaa";
    let found = broken(rt.alloc(), settings, text)?;
    let breaks = [3, 7, 11, 15, 19, 23, 27, 31, 35, 39, 49];
    assert!(rt; gave(&found, 2, 1_000_010_000, &breaks));
    Ok(())
}

/// The breaks are places of the hyphenated list, and the last line costs finalhyphendemerits where
/// it isn't rescued.
#[test]
fn the_second_breaks_words(rt: HostRuntime) -> Result<(), Fail> {
    let alloc = rt.alloc();
    let settings = b"\\hsize=27.5pt \\righthyphenmin=2 \\hyphenation{bb-bb}";
    let rescued = broken(alloc, settings, b"aa bbbb")?;
    assert!(rt; gave(&rescued, 2, 2600, &[5, 10]));
    let stretched =
        b"\\hsize=27.5pt \\righthyphenmin=2 \\hyphenation{bb-bb} \\emergencystretch=1sp";
    let paid = broken(alloc, stretched, b"aa bbbb")?;
    assert!(rt; gave(&paid, 2, 7700, &[5, 10]));
    Ok(())
}

#[test]
fn hangs_count_from_level_two_on(rt: HostRuntime) -> Result<(), Fail> {
    let alloc = rt.alloc();
    let text = b"aa bb, cc";
    let two = b"\\hsize=22.5pt \\rpcode\\f 44=500 \\pdfprotrudechars=2";
    assert!(rt; gave(&broken(alloc, two, text)?, 1, 200, &[6, 11]));
    let one = b"\\hsize=22.5pt \\rpcode\\f 44=500 \\pdfprotrudechars=1";
    assert!(rt; gave(&broken(alloc, one, text)?, 2, 0, &[6, 11]));
    let none = b"\\hsize=22.5pt \\rpcode\\f 44=500";
    assert!(rt; gave(&broken(alloc, none, text)?, 2, 0, &[6, 11]));
    Ok(())
}

#[test]
fn fonts_make_up_for_a_part(rt: HostRuntime) -> Result<(), Fail> {
    let alloc = rt.alloc();
    let text = b"aa bb cc dd";
    let even = b"\\hsize=24pt \\pdffontexpand\\f 20 20 1 \\pdfadjustspacing=2";
    assert!(rt; gave(&broken(alloc, even, text)?, 1, 6184, &[5, 13]));
    let rigid = b"\\hsize=24pt \\pdffontexpand\\f 20 20 1 \\pdfadjustspacing=2 \\efcode\\f 97=0";
    assert!(rt; gave(&broken(alloc, rigid, text)?, 2, 24641, &[5, 13]));
    Ok(())
}
