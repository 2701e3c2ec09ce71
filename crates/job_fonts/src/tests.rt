//! Fonts of a small file, worked out by hand.
ghost use Rattle.std.specs.Prelude.{◌≡◌, IfOk};
ghost use Rattle.font_stock.specs.Sizes.{IsSize};
ghost use Rattle.job_text.specs.Fits.{IsFileName};

use crate::{FontFault, FontFaultKind, file_name, read_font};
use font_stock::{Expand, FontCodes, Size};
use items::Items;
use job_text::FontDecl;
use std::alloc::{AllocError, Global};
use std::test::Fail;
use test_fonts::{HALF, kerned10};
use tfm_read::TfmFaultKind;

/// The font tiny10 at a size, of which `a` hangs by 50 thousandths into the left margin.
fn declared(alloc: Global, size: Size, expand: Option<Expand>) -> Result<FontDecl, AllocError>
    requires { IsSize size }
    ensures size { IfOk result (λ decl. IsSize decl.size) }
    ensures name { IfOk result (λ decl. IsFileName decl.name) }
{
    let mut codes = FontCodes::plain();
    codes.set_left(b'a', 50);
    Ok(FontDecl {
        name: Items::from_slice(alloc, b"tiny10")?,
        size,
        codes,
        expand,
    })
}

#[test]
fn a_declared_font_is_read(rt: HostRuntime) -> Result<(), Fail> {
    let alloc = rt.alloc();
    let bytes = kerned10(alloc, HALF, 0xffff0000)?;
    let decl = declared(alloc, Size::Scaled { by: 1001 }, None)?;
    let font = read_font(alloc, &decl, &bytes)?;
    assert_eq!(rt; font.size(), 656015);
    assert_eq!(rt; font.width(b'a'), 328007);
    assert_eq!(rt; font.left_hang(b'a'), 32801);
    assert!(rt; font.expand().is_none());
    let name = file_name(alloc, &decl)?;
    assert_eq!(rt; name.as_str(), "tiny10.tfm");
    Ok(())
}

/// The width of the characters, the kern, the size, and the number of the fault.
type Refused = (u32, u32, i32, u8);

#[test]
fn the_size_comes_before_a_character_and_that_before_a_kern(rt: HostRuntime) -> Result<(), Fail> {
    let alloc = rt.alloc();
    let cases: &[Refused] = &[
        (0x00ffffff, 0x00ffffff, 134217728, 11),
        (0x00ffffff, 0x00ffffff, 134217727, 12),
        (0xff000000, 0, 655360, 12),
        (HALF, 0x00ffffff, 655360, 13),
    ];
    for (width, kern, size, number) in cases {
        assert!(rt; *size >= 1);
        let expand = Some(Expand {
            stretch: 20,
            shrink: 20,
            step: 4,
        });
        let bytes = kerned10(alloc, *width, *kern)?;
        let decl = declared(alloc, Size::At { size: *size }, expand)?;
        match read_font(alloc, &decl, &bytes) {
            Err(FontFault::At { kind, word }) => {
                assert_eq!(rt; kind.number(), *number);
                assert_eq!(rt; word, 0);
            }
            Err(FontFault::NoMemory) => panic!(rt; "no memory"),
            Ok(_) => panic!(rt; "no fault at {size} sp"),
        }
    }
    Ok(())
}

#[test]
fn a_fault_of_the_file_comes_first_with_its_word(rt: HostRuntime) -> Result<(), Fail> {
    let alloc = rt.alloc();
    let bytes = kerned10(alloc, 0x01000000, 0x00ffffff)?;
    let decl = declared(alloc, Size::At { size: 134217728 }, None)?;
    let refused = read_font(alloc, &decl, &bytes);
    let kind = FontFaultKind::Tfm {
        kind: TfmFaultKind::BadFix,
    };
    assert_eq!(rt; refused.err(), Some(FontFault::At { kind, word: 103 }));
    Ok(())
}
