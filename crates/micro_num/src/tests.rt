//! Values at the edges of the rules, worked out by hand.
ghost use Rattle.std.specs.Prelude.{◌<◌, ◌≤◌, ◌^◌, length};

use super::*;
use items::Items;
use std::mem::size_of;
use std::test::Fail;

#[test]
fn badness_at_the_edges_of_its_formula(rt: HostRuntime) {
    let cases = [
        (0, 5, 0),
        (1, 0, 10000),
        (1, -5, 10000),
        (2, 1, 800),
        (7230584, 7230584, 100),
        (7230585, 7230585, 100),
        (7230585, 1663496, 10000),
    ];
    for (t, s, want) in cases {
        assert_eq!(rt; badness(t, s), want, "at {t}, {s}");
    }
}

#[test]
fn halves_go_away_from_zero(rt: HostRuntime) {
    let cases = [
        (7, 2, 4),
        (-7, 2, -4),
        (7, -2, -4),
        (-7, -2, 4),
        (5, 4, 1),
        (-5, 4, -1),
        (0, -3, 0),
    ];
    for (n, d, want) in cases {
        assert_eq!(rt; round_over(n, d), want, "at {n}, {d}");
    }
}

#[test]
fn xn_over_d_cuts_toward_zero(rt: HostRuntime) {
    let cases = [
        (7, 1, 2, 3),
        (-7, 1, 2, -3),
        (-1, 1, 2, 0),
        (2147483648, 2147483648, 1, 4611686018427387904),
    ];
    for (x, n, d, want) in cases {
        assert_eq!(rt; xn_over_d(x, n, d), want, "at {x}, {n}, {d}");
    }
}

#[test]
fn decimals_in_scaled_points(rt: HostRuntime) {
    assert_eq!(rt; round_decimals(&[3]), 19661);
    assert_eq!(rt; round_decimals(&[5]), 32768);
    assert_eq!(rt; round_decimals(&[]), 0);
    assert_eq!(rt;
        round_decimals(&[9, 9, 9, 9, 9, 9, 9, 9, 9, 9, 9, 9, 9, 9, 9, 9, 9]),
        65536
    );
}

#[test]
fn units_in_scaled_points(rt: HostRuntime) {
    let cases = [
        (1, 0, Unit::In, Some(4736286)),
        (6, 32768, Unit::In, Some(30785863)),
        (1, 0, Unit::Mm, Some(186467)),
        (1, 0, Unit::Bp, Some(65781)),
        (16383, 65535, Unit::Pt, Some(1073741823)),
        (16384, 0, Unit::Pt, None),
        (1073741823, 65535, Unit::Sp, Some(1073741823)),
        (1073741824, 0, Unit::Sp, None),
    ];
    for (whole, fraction, unit, want) in cases {
        assert_eq!(rt;
            unit_to_sp(whole, fraction, unit),
            want,
            "at {whole}, {fraction}, {unit:?}"
        );
    }
}

#[test]
fn a_fix_word_at_a_size(rt: HostRuntime) {
    let cases = [
        (524288, 655360, 327680),
        (534774, 655360, 334233),
        (513802, 655360, 321126),
        (-65536, 655360, -40960),
        (-1, 1, -1),
        (-16777216, 134217727, -2147483392),
        (16777215, 134217727, 2147483264),
    ];
    for (w, z, want) in cases {
        assert_eq!(rt; scale(w, z), want, "at {w}, {z}");
    }
}

#[test]
fn the_plain_parameters(rt: HostRuntime) {
    let plain = Params::plain();
    assert_eq!(rt; plain.hsize, 30785863);
    assert_eq!(rt; plain.tolerance, 200);
    assert_eq!(rt; plain.baselineskip.width, 786432);
    assert_eq!(rt; plain.parfillskip.order, 1);
}

/// The parameters of lines of 35pt that hang so.
fn hanging(hangafter: i32, hangindent: Sp) -> Params {
    let mut params = Params::plain();
    params.hsize = 2293760;
    params.hangafter = hangafter;
    params.hangindent = hangindent;
    params
}

/// The width, the indent and the group of a line.
fn row(params: &Params, shape: &[ShapeLine], number: u32) -> (Sp, Sp, u32)
    requires number { 1 ≤ number }
    requires shape { length shape.now < 2 ^ 32 }
{
    if params.hsize.unsigned_abs() >= 1 << 30 {
        return (0, 0, 0);
    }
    if params.hangindent.unsigned_abs() >= 1 << 30 {
        return (0, 0, 0);
    }
    let line = shape_line(params, shape, number);
    (line.width, line.indent, line_group(params, shape, number))
}

/// The first four lines of a paragraph of such lines.
fn lines(hangafter: i32, hangindent: Sp, shape: &[ShapeLine]) -> [(Sp, Sp, u32); 4]
    requires shape { length shape.now < 2 ^ 32 }
{
    let params = hanging(hangafter, hangindent);
    [
        row(&params, shape, 1),
        row(&params, shape, 2),
        row(&params, shape, 3),
        row(&params, shape, 4),
    ]
}

#[test]
fn lines_hang_by_the_signs_of_their_settings(rt: HostRuntime) {
    let wide = 2293760;
    let narrow = 1474560;
    let right = 819200;
    let first = (wide, 0, 1);
    let hung = (narrow, right, 2);
    assert_eq!(rt; lines(1, right, &[]), [first, hung, hung, hung]);
    let hung = (narrow, right, 1);
    assert_eq!(rt; lines(0, right, &[]), [hung, hung, hung, hung]);
    let full = (wide, 0, 2);
    assert_eq!(rt; lines(-1, right, &[]), [hung, full, full, full]);
    let left = [(narrow, 0, 1), (narrow, 0, 2), (wide, 0, 3), (wide, 0, 3)];
    assert_eq!(rt; lines(-2, -right, &[]), left);
    assert_eq!(rt; lines(-2147483648, 0, &[]), [first, first, first, first]);
}

#[test]
fn a_shape_repeats_its_last_line(rt: HostRuntime) {
    let shape = [
        ShapeLine {
            indent: 0,
            width: 1474560,
        },
        ShapeLine {
            indent: 327680,
            width: 2293760,
        },
    ];
    let last = (2293760, 327680, 2);
    assert_eq!(rt;
        lines(1, 819200, &shape),
        [(1474560, 0, 1), last, last, last]
    );
    let mut params = hanging(-2147483648, 1);
    assert_eq!(rt; last_special_line(&params, &shape), 1);
    assert_eq!(rt; last_special_line(&params, &[]), 2147483648);
    assert_eq!(rt; open_ended_group(&params, &[]), Some(2147483649));
    params.looseness = -1;
    assert_eq!(rt; line_group(&params, &shape, 4), 4);
    assert_eq!(rt; open_ended_group(&params, &shape), None);
}

#[test]
fn a_part_takes_at_most_32_bytes(rt: HostRuntime) -> Result<(), Fail> {
    assert!(rt; size_of::<PartAt>() <= 32);
    let disc = Disc::new(
        rt.alloc(),
        Items::from_slice(rt.alloc(), &[1])?,
        Items::new(rt.alloc()),
        Items::from_slice(rt.alloc(), &[2, 3])?,
    )?;
    assert_eq!(rt; disc.pre(), [1].as_slice());
    assert_eq!(rt; disc.post().len(), 0);
    assert_eq!(rt; disc.whole(), [2, 3].as_slice());
    Ok(())
}

#[test]
fn classes_change_past_12_and_99(rt: HostRuntime) {
    let cases = [
        (0, DECENT, DECENT),
        (12, DECENT, DECENT),
        (13, LOOSE, TIGHT),
        (99, LOOSE, TIGHT),
        (100, VERY_LOOSE, TIGHT),
    ];
    for (badness, stretched, shrunk) in cases {
        assert_eq!(rt; stretched_class(badness), stretched, "at {badness}");
        assert_eq!(rt; shrunk_class(badness), shrunk, "at {badness}");
    }
}

#[test]
fn the_plain_tables(rt: HostRuntime) {
    let plain = Tables::plain();
    assert_eq!(rt; plain.sfcode[64], 1000);
    assert_eq!(rt; plain.sfcode[65], 999);
    assert_eq!(rt; plain.sfcode[97], 1000);
    assert_eq!(rt; plain.lccode[90], 122);
    assert_eq!(rt; plain.lccode[97], 97);
    assert_eq!(rt; plain.lccode[48], 0);
}
