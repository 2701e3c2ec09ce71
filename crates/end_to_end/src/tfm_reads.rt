//! What is read of a font's file.

use std::test::Fail;
use test_fonts::{bytes_of, lig10, loop10, other_font, tiny10};
use tfm_read::{CharInfo, read_tfm};

#[test]
fn a_font_with_ligatures_is_read(rt: HostRuntime) -> Result<(), Fail> {
    let font = read_tfm(rt.alloc(), &lig10(rt.alloc())?)?;
    assert_eq!(rt; font.checksum, 0);
    assert_eq!(rt; font.design, 655360);
    assert_eq!(rt; (font.right, font.left), (Some(0), Some(5)));
    assert_eq!(rt; font.params, [0, 262144, 131072, 65536, 524288, 1048576, 0]);
    assert_eq!(rt; font.kerns.as_slice(), [-65536].as_slice());
    let words: Vec<(u8, u8, u8, u8)> = font
        .ligs
        .as_slice()
        .iter()
        .map(|word| (word.skip, word.next, word.op, word.rest))
        .collect(rt.alloc())?;
    let want = [
        (255, 0, 0, 0),
        (0, 102, 0, 11),
        (128, 105, 0, 12),
        (128, 105, 0, 14),
        (128, 118, 128, 0),
        (128, 113, 128, 0),
        (128, 0, 128, 0),
        (255, 0, 0, 5),
    ];
    assert_eq!(rt; words.as_slice(), want.as_slice());
    for (code, program) in [
        (102, Some(1)),
        (11, Some(3)),
        (111, Some(4)),
        (114, Some(6)),
        (97, None),
    ] {
        let info = CharInfo {
            exists: true,
            width: 524288,
            height: 524288,
            depth: 0,
            program,
        };
        assert_eq!(rt; font.char_info(code), info);
    }
    for code in [0, 10, 13, 32, 127, 255] {
        assert!(rt; !font.exists(code));
    }
    assert!(rt; font.has_ligatures());
    Ok(())
}

#[test]
fn a_font_without_ligatures_or_boundaries(rt: HostRuntime) -> Result<(), Fail> {
    let font = read_tfm(rt.alloc(), &tiny10(rt.alloc())?)?;
    assert!(rt; !font.has_ligatures());
    assert_eq!(rt; (font.right, font.left), (None, None));
    let font = read_tfm(rt.alloc(), &loop10(rt.alloc())?)?;
    assert!(rt; font.has_ligatures());
    assert_eq!(rt; (font.right, font.left), (None, None));
    assert_eq!(rt; font.char_info(120).program, Some(0));
    Ok(())
}

#[test]
fn other_tables_and_what_is_stepped_over(rt: HostRuntime) -> Result<(), Fail> {
    let mut bytes = other_font(rt.alloc())?;
    bytes.extend_from_slice(&[1, 2, 3, 4, 5])?;
    let font = read_tfm(rt.alloc(), &bytes)?;
    assert_eq!(rt; font.checksum, 0xdeadbeef);
    assert_eq!(rt; font.design, 786432);
    let first = CharInfo {
        exists: true,
        width: 655360,
        height: 327680,
        depth: -131072,
        program: None,
    };
    let second = CharInfo {
        exists: true,
        width: -1048576,
        height: 0,
        depth: 0,
        program: None,
    };
    let none = CharInfo {
        exists: false,
        width: 0,
        height: 0,
        depth: 0,
        program: None,
    };
    for code in 0..=255 {
        let want = match code {
            65 => first,
            66 => second,
            _ => none,
        };
        assert_eq!(rt; font.char_info(code), want, "at {code}");
    }
    assert_eq!(rt; font.kerns.as_slice(), [-65536, 32768].as_slice());
    assert_eq!(rt; font.params, [2147483647, -16777216, 16777215, 1, -1, 5, 6]);
    assert!(rt; !font.has_ligatures());
    Ok(())
}

#[test]
fn a_font_with_no_codes_at_all(rt: HostRuntime) -> Result<(), Fail> {
    let words = [
        12 << 16 | 2,
        256 << 16 | 255,
        1 << 16 | 1,
        1 << 16 | 1,
        0,
        0,
        7,
        1048576,
        0,
        0,
        0,
        0,
    ];
    let font = read_tfm(rt.alloc(), &bytes_of(rt.alloc(), &words)?)?;
    assert_eq!(rt; font.checksum, 7);
    assert_eq!(rt; font.design, 65536);
    for code in 0..=255 {
        assert!(rt; !font.exists(code));
    }
    assert_eq!(rt; font.params, [0; 7]);
    Ok(())
}
