//! Values of small fonts, worked out by hand.
use super::*;
use std::alloc::{AllocError, Global};
use std::test::Fail;
use tfm_read::{Tfm, TfmFault, read_tfm};

/// A font of the codes 33 to 126, each of this width and half a design size high, with one kern.
fn font_file(alloc: Global, width: u32, kern: u32) -> Result<Vec<u8>, AllocError> {
    let mut words = vec![in alloc;
        116 << 16 | 2,
        33 << 16 | 126,
        2 << 16 | 2,
        1 << 16 | 1,
        1,
        7,
        0,
        10485760,
    ]?;
    for _ in 33..127 {
        words.push(0x01100000)?;
    }
    words.extend_from_slice(&[0, width, 0, 524288, 0, 0, kern])?;
    words.extend_from_slice(&[0, 262144, 131072, 65536, 524288, 1048576, 0])?;
    let mut bytes = Vec::new(alloc);
    for word in &words {
        bytes.extend_from_slice(&word.to_be_bytes())?;
    }
    Ok(bytes)
}

/// The metrics of that font, whose kern is -1/16 of the size.
fn metrics(alloc: Global, width: u32) -> Result<Tfm, TfmFault> {
    kerned(alloc, width, 0xffff0000)
}

/// The metrics of that font.
fn kerned(alloc: Global, width: u32, kern: u32) -> Result<Tfm, TfmFault> {
    let bytes = font_file(alloc, width, kern)?;
    read_tfm(alloc, &bytes)
}

/// 20 thousandths each way, in steps of 4.
fn twenty_by_four() -> Expand {
    Expand {
        stretch: 20,
        shrink: 20,
        step: 4,
    }
}

#[test]
fn steps_are_rounded_to_whole_ones(rt: HostRuntime) {
    let cases = [
        (1000, 300, 8),
        (1000, -300, -8),
        (1000, 1000, 20),
        (1000, 100, 4),
        (1000, 30, 0),
        (500, 300, 4),
    ];
    let expand = twenty_by_four();
    for (factor, ratio, want) in cases {
        assert_eq!(rt; expand.step_at(factor, ratio), want, "at {factor}, {ratio}");
    }
}

#[test]
fn the_numbers_of_a_font_at_its_design_size(rt: HostRuntime) -> Result<(), Fail> {
    let alloc = rt.alloc();
    let mut codes = FontCodes::plain();
    codes.set_right(b',', 500);
    codes.set_left(b'a', -50);
    codes.set_ef(b'b', 500);
    let expand = Some(twenty_by_four());
    let font = Font::at(alloc, metrics(alloc, 524288)?, Size::Design, codes, expand)?;
    assert_eq!(rt; font.size(), 655360);
    assert!(rt; font.exists(b'a') && !font.exists(b' '));
    assert_eq!(rt; font.width(b'a'), 327680);
    assert_eq!(rt; font.height(b'a'), 327680);
    assert_eq!(rt; font.depth(b'a'), 0);
    assert_eq!(rt; font.width(b' '), 0);
    assert_eq!(rt; font.kern(-65536), -40960);
    assert_eq!(rt; font.quad(), 655360);
    let space = font.space();
    assert_eq!(rt;
        (space.width, space.stretch, space.shrink),
        (163840, 81920, 40960)
    );
    assert_eq!(rt; font.extra(), 0);
    assert_eq!(rt; font.stretch_of(b'a'), 6553);
    assert_eq!(rt; font.shrink_of(b'a'), 6554);
    assert_eq!(rt; font.stretch_of(b'b'), 3277);
    assert_eq!(rt; font.step_for(b'b', 300), 4);
    assert_eq!(rt; font.right_hang(b','), 327680);
    assert_eq!(rt; font.left_hang(b'a'), -32768);
    assert_eq!(rt; font.hyphen(), 45);
    assert_eq!(rt; font.hyphen_code(), Some(45));
    assert_eq!(rt; font.tfm().design, 655360);
    Ok(())
}

#[test]
fn a_font_of_2_to_the_27_sp_is_refused(rt: HostRuntime) -> Result<(), Fail> {
    let alloc = rt.alloc();
    let past = Size::At { size: 134217728 };
    let refused = Font::at(
        alloc,
        metrics(alloc, 524288)?,
        past,
        FontCodes::plain(),
        None,
    );
    assert_eq!(rt;
        refused.err(),
        Some(FontRefused::SizePast { size: 134217728 })
    );
    let largest = Size::At { size: 134217727 };
    let font = Font::at(
        alloc,
        metrics(alloc, 524288)?,
        largest,
        FontCodes::plain(),
        None,
    )?;
    assert_eq!(rt; font.size(), 134217727);
    let cut = Size::Scaled { by: 1001 };
    let font = Font::at(
        alloc,
        metrics(alloc, 524288)?,
        cut,
        FontCodes::plain(),
        None,
    )?;
    assert_eq!(rt; font.size(), 656015);
    Ok(())
}

#[test]
fn the_first_character_that_gets_too_wide_is_named(rt: HostRuntime) -> Result<(), Fail> {
    let alloc = rt.alloc();
    let tfm = metrics(alloc, 0x00ffffff)?;
    let expand = Some(twenty_by_four());
    let refused = Font::at(alloc, tfm, Size::Design, FontCodes::plain(), expand);
    assert_eq!(rt; refused.err(), Some(FontRefused::WidePast { code: 33 }));
    let tfm = metrics(alloc, 0x00ffffff)?;
    let font = Font::at(alloc, tfm, Size::Design, FontCodes::plain(), None)?;
    assert_eq!(rt; font.stretch_of(33), 0);
    let tfm = kerned(alloc, 0x00ffffff, 0x00ffffff)?;
    let refused = Font::at(alloc, tfm, Size::Design, FontCodes::plain(), expand);
    assert_eq!(rt; refused.err(), Some(FontRefused::WidePast { code: 33 }));
    let tfm = kerned(alloc, 524288, 0x00ffffff)?;
    let refused = Font::at(alloc, tfm, Size::Design, FontCodes::plain(), expand);
    assert_eq!(rt; refused.err(), Some(FontRefused::WideKern { index: 0 }));
    Ok(())
}

/// How much a kern stretches and shrinks after a character, where it is one of the font's.
fn growth(font: &Font, code: u8, fix: i32) -> Option<(i64, i64)> {
    if font.tfm().kerns.as_slice().contains(&fix) {
        Some((font.kern_stretch(code, fix), font.kern_shrink(code, fix)))
    } else {
        None
    }
}

#[test]
fn kerns_expand_with_the_character_before_them(rt: HostRuntime) -> Result<(), Fail> {
    let alloc = rt.alloc();
    let mut codes = FontCodes::plain();
    codes.set_ef(b'b', 500);
    let expand = Some(Expand {
        stretch: 20,
        shrink: 20,
        step: 1,
    });
    let font = Font::at(alloc, metrics(alloc, 524288)?, Size::Design, codes, expand)?;
    assert_eq!(rt; growth(&font, b'a', -65536), Some((-820, -819)));
    assert_eq!(rt; growth(&font, b'b', -65536), Some((-410, -410)));
    assert_eq!(rt; growth(&font, b'a', 1), None);
    Ok(())
}

#[test]
fn a_stock_numbers_its_fonts(rt: HostRuntime) -> Result<(), Fail> {
    let alloc = rt.alloc();
    let mut fonts = Vec::new(alloc);
    let tfm = metrics(alloc, 524288)?;
    fonts.push(Font::at(alloc, tfm, Size::Design, FontCodes::plain(), None)?)?;
    let stock = Stock::make(fonts);
    assert_eq!(rt; stock.count(), 1);
    assert_eq!(rt; stock.font(0).size(), 655360);
    Ok(())
}
