//! Each check of a TFM file, and the word that it fails at: cut files and hostile fonts.

use std::alloc::{AllocError, Global};
use std::process::Abort;
use std::test::Fail;
use test_fonts::{lig10, loop10, tiny10, with_words};
use tfm_read::{TfmFault, TfmFaultKind, read_tfm};

/// A fault at a word.
fn at(kind: TfmFaultKind, word: u32) -> Option<TfmFault> {
    Some(TfmFault::At { kind, word })
}

/// Why the bytes are no font, if they are none.
fn fault_of(alloc: Global, bytes: &[u8]) -> Option<TfmFault> {
    read_tfm(alloc, bytes).err()
}

/// That the font with one word put in place of another has that fault.
fn refuses(
    rt: &impl Abort,
    alloc: Global,
    font: &[u8],
    cases: &[(usize, u32, TfmFaultKind, u32)],
) -> Result<(), AllocError> {
    for (place, word, kind, fault_word) in cases {
        let bytes = with_words(alloc, font, &[(*place, *word)])?;
        let want = at(*kind, *fault_word);
        assert_eq!(rt; fault_of(alloc, &bytes), want, "word {place} as {word:x}");
    }
    Ok(())
}

/// That the font with one word put in place of another is read.
fn reads(
    rt: &impl Abort,
    alloc: Global,
    font: &[u8],
    cases: &[(usize, u32)],
) -> Result<(), AllocError> {
    for case in cases {
        let bytes = with_words(alloc, font, &[*case])?;
        assert_eq!(rt; fault_of(alloc, &bytes), None, "after {case:?}");
    }
    Ok(())
}

/// That the font with two words put in place of others has that fault.
fn refuses_both(
    rt: &impl Abort,
    alloc: Global,
    font: &[u8],
    edits: [(usize, u32); 2],
    want: Option<TfmFault>,
) -> Result<(), AllocError> {
    let bytes = with_words(alloc, font, &edits)?;
    assert_eq!(rt; fault_of(alloc, &bytes), want, "after {edits:?}");
    Ok(())
}

#[test]
fn a_cut_file_is_short(rt: HostRuntime) -> Result<(), Fail> {
    let alloc = rt.alloc();
    for (font, len) in [
        (tiny10(alloc)?, 460),
        (lig10(alloc)?, 584),
        (loop10(alloc)?, 464),
    ] {
        assert_eq!(rt; font.len(), len);
        for (count, _) in font.iter().enumerate() {
            let cut = &font[..count];
            assert_eq!(rt;
                fault_of(alloc, cut),
                at(TfmFaultKind::Short, count as u32 / 4)
            );
        }
        assert_eq!(rt; fault_of(alloc, &font), None);
    }
    Ok(())
}

#[test]
fn each_check_of_the_lengths(rt: HostRuntime) -> Result<(), Fail> {
    let alloc = rt.alloc();
    let font = tiny10(alloc)?;
    let cases = [
        (0, 116 << 16 | 2, TfmFaultKind::LengthsDisagree, 0),
        (0, 114 << 16 | 1, TfmFaultKind::BadRange, 0),
        (0, 0x80730002, TfmFaultKind::BadRange, 0),
        (5, 0x8007, TfmFaultKind::BadRange, 5),
        (1, 33 << 16 | 256, TfmFaultKind::BadRange, 1),
        (7, 1048575, TfmFaultKind::DesignTooSmall, 7),
        (7, 0x80000000, TfmFaultKind::DesignTooSmall, 7),
    ];
    refuses(&rt, alloc, &font, &cases)?;
    let no_widths = [(0, 113 << 16 | 2), (2, 2)];
    refuses_both(
        &rt,
        alloc,
        &font,
        no_widths,
        at(TfmFaultKind::EmptyTable, 2),
    )?;
    let no_depths = [(0, 114 << 16 | 2), (3, 1)];
    refuses_both(
        &rt,
        alloc,
        &font,
        no_depths,
        at(TfmFaultKind::EmptyTable, 3),
    )?;
    reads(&rt, alloc, &font, &[(7, 1048576)])?;
    Ok(())
}

#[test]
fn each_check_of_a_character(rt: HostRuntime) -> Result<(), Fail> {
    let alloc = rt.alloc();
    let cases = [
        (8, 0x02100000, TfmFaultKind::IndexPast, 8),
        (9, 0x01200000, TfmFaultKind::IndexPast, 9),
        (9, 0x01110000, TfmFaultKind::IndexPast, 9),
        (101, 0x01100400, TfmFaultKind::IndexPast, 101),
        (101, 0x01100100, TfmFaultKind::IndexPast, 101),
    ];
    let font = tiny10(alloc)?;
    refuses(&rt, alloc, &font, &cases)?;
    reads(&rt, alloc, &font, &[(101, 0x01100200), (100, 0x011003ff)])?;
    let past_the_words = [(8, 0x01100108, TfmFaultKind::IndexPast, 8)];
    refuses(&rt, alloc, &lig10(alloc)?, &past_the_words)?;
    Ok(())
}

#[test]
fn each_check_of_a_size(rt: HostRuntime) -> Result<(), Fail> {
    let alloc = rt.alloc();
    let cases = [
        (102, 1, TfmFaultKind::NotZeroFirst, 102),
        (107, 1, TfmFaultKind::NotZeroFirst, 107),
        (103, 0x01080000, TfmFaultKind::BadFix, 103),
        (109, 0x01040000, TfmFaultKind::BadFix, 109),
        (114, 0xfe000000, TfmFaultKind::BadFix, 114),
    ];
    let font = tiny10(alloc)?;
    refuses(&rt, alloc, &font, &cases)?;
    reads(&rt, alloc, &font, &[(103, 0xff080000), (108, 0x01000000)])?;
    let kern = [(138, 0x7fff0000, TfmFaultKind::BadFix, 138)];
    refuses(&rt, alloc, &lig10(alloc)?, &kern)?;
    Ok(())
}

#[test]
fn each_check_of_a_ligature_word(rt: HostRuntime) -> Result<(), Fail> {
    let alloc = rt.alloc();
    let cases = [
        (131, 0x00668001, TfmFaultKind::LigPast, 131),
        (131, 0x0066000d, TfmFaultKind::NoSuchChar, 131),
        (131, 0x000d000b, TfmFaultKind::NoSuchChar, 131),
        (132, 0x6469000c, TfmFaultKind::LigPast, 132),
        (137, 0xff000008, TfmFaultKind::LigPast, 137),
    ];
    let font = lig10(alloc)?;
    refuses(&rt, alloc, &font, &cases)?;
    reads(&rt, alloc, &font, &[(137, 0xff000007)])?;
    Ok(())
}

#[test]
fn of_two_faults_the_first_check_is_told(rt: HostRuntime) -> Result<(), Fail> {
    let alloc = rt.alloc();
    let font = tiny10(alloc)?;
    // The lengths disagree too, whose kind has the lower number.
    let range = [(0, 115 << 16 | 1, TfmFaultKind::BadRange, 0)];
    refuses(&rt, alloc, &font, &range)?;
    let no_widths_and_another_length = [(0, 112 << 16 | 2), (2, 2)];
    let disagree = at(TfmFaultKind::LengthsDisagree, 0);
    refuses_both(&rt, alloc, &font, no_widths_and_another_length, disagree)?;
    let small_and_past = [(7, 0), (8, 0x02100000)];
    let small = at(TfmFaultKind::DesignTooSmall, 7);
    refuses_both(&rt, alloc, &font, small_and_past, small)?;
    let past_and_not_zero = [(8, 0x02100000), (102, 1)];
    let past = at(TfmFaultKind::IndexPast, 8);
    refuses_both(&rt, alloc, &font, past_and_not_zero, past)?;
    // A word that names a missing character and a kern past the last.
    let missing = [(131, 0x000d8001, TfmFaultKind::NoSuchChar, 131)];
    refuses(&rt, alloc, &lig10(alloc)?, &missing)?;
    Ok(())
}

#[test]
fn the_numbers_of_the_kinds(rt: HostRuntime) {
    let kinds = [
        TfmFaultKind::Short,
        TfmFaultKind::LengthsDisagree,
        TfmFaultKind::BadRange,
        TfmFaultKind::EmptyTable,
        TfmFaultKind::IndexPast,
        TfmFaultKind::NotZeroFirst,
        TfmFaultKind::BadFix,
        TfmFaultKind::LigPast,
        TfmFaultKind::NoSuchChar,
        TfmFaultKind::DesignTooSmall,
    ];
    for (i, kind) in kinds.iter().enumerate() {
        assert_eq!(rt; usize::from(kind.number()), i + 1);
    }
}
