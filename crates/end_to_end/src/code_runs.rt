//! Runs of codes by the ligature and kern programs of small fonts.
use lig_kern::{Glyph, LigFault, run};
use std::test::Fail;
use test_fonts::{lig10, loop10, tiny10};
use tfm_read::read_tfm;

#[test]
fn programs_put_ligatures_and_kerns(rt: HostRuntime) -> Result<(), Fail> {
    let alloc = rt.alloc();
    let tfm = read_tfm(alloc, &lig10(alloc)?)?;
    let kern = Glyph::Kern { fix: -65536 };
    let character = |code, at| Glyph::Char { code, at };
    let ffi = [Glyph::Lig {
        code: 14,
        from: 0,
        to: 3,
    }];
    let ov = [character(b'o', 0), kern, character(b'v', 1)];
    let q = [kern, character(b'q', 0)];
    let r = [character(b'r', 0), kern];
    let alone = [character(b'r', 0)];
    let cases: [(&[u8], bool, &[Glyph]); 5] = [
        (b"ffi", true, &ffi),
        (b"ov", true, &ov),
        (b"q", true, &q),
        (b"r", true, &r),
        (b"r", false, &alone),
    ];
    for (codes, boundaries, glyphs) in cases {
        assert!(rt; codes.len() < 9);
        let found = run(alloc, &tfm, codes, boundaries, boundaries)?;
        assert_eq!(rt; found.as_slice(), glyphs);
    }
    Ok(())
}

#[test]
fn endless_programs_and_missing_characters_are_refused(rt: HostRuntime) -> Result<(), Fail> {
    let alloc = rt.alloc();
    let endless = run(alloc, &read_tfm(alloc, &loop10(alloc)?)?, b"xx", true, true).err();
    assert_eq!(rt; endless, Some(LigFault::TooManySteps));
    let missing = run(
        alloc,
        &read_tfm(alloc, &tiny10(alloc)?)?,
        &[97, 200],
        true,
        true,
    )
    .err();
    assert_eq!(rt; missing, Some(LigFault::Missing { index: 1 }));
    Ok(())
}
