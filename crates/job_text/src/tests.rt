//! Each fault at its place, the limits of fonts, paragraphs and shapes, and a job that is read.
use crate::reader::read_job;
use font_stock::Size;
use job_reading::{JobFault, JobFaultKind};
use micro_num::Part;
use std::alloc::Global;
use std::test::Fail;

#[test]
fn each_fault_stands_at_its_place(rt: HostRuntime) -> Result<(), Fail> {
    let cases: &[(&[u8], u32, u8)] = &[
        (b"\\foo", 0, 1),
        (b"\\!", 0, 1),
        (b"\\kern", 5, 2),
        (b"\\hsize=-\\relax", 8, 2),
        (b"\\sfcode`a=32768", 10, 3),
        (b"\\pretolerance=-2147483648", 14, 3),
        (b"\\hsize=3", 8, 4),
        (b"\\hsize=20000pt", 7, 5),
        (b"\\hskip0pt minus1fil", 16, 6),
        (b"\\font\\f=t \\f a\\font\\g=u", 14, 7),
        (b"\\lpcode\\g 1=2", 7, 8),
        (b"\\patterns{1", 10, 9),
        (b"\\hyphenation{-}", 13, 10),
        (b"{", 0, 11),
        (b"\\noindent {", 10, 11),
        (b"\\font\\f=t \\pdffontexpand\\f 1000 500 1", 10, 14),
        (b"a", 0, 15),
        (b"\\par\x7f", 4, 16),
        (b"\\bye \\", 5, 17),
        (b"\\font\\f=t_", 9, 18),
        (b"\\font\\f=t \\f a\\par b\\par\\lccode1=2", 24, 19),
        (b"\\font\\hsize=tiny10", 5, 20),
        (b"\\font", 5, 21),
        (b"}", 0, 22),
        (b"\\font\\f=t \\f \\discretionary{{", 28, 23),
        (b"\\patterns a", 10, 24),
        (b"\\parshape 1025", 10, 3),
        (b"\\parshape=+1025", 10, 3),
        (b"\\parshape 2 1pt 2pt 3pt\\relax", 23, 2),
        (b"\\parshape 1 1pt -16384pt", 16, 5),
        (b"\\looseness=2147483648 ", 11, 3),
        (b"\\hangafter=\\relax", 11, 2),
        (b"\\hangindent=5 x", 14, 4),
        (b"\\font\\f=t \\f a\\looseness=1 ", 14, 7),
        (b"\\font\\f=t \\f a\\hangindent=1pt ", 14, 7),
        (b"\\font\\f=t \\f a\\hangafter=1 ", 14, 7),
        (b"\\font\\f=t \\f {\\parshape 0 ", 14, 7),
        (b"\\font\\parshape=t", 5, 20),
        (b"\\font\\f=t \\f \\discretionary{\\looseness}{}{}", 28, 23),
        (b"\\patterns{a\\hangafter}", 11, 9),
        (b"\\patterns\\looseness", 9, 24),
    ];
    for (bytes, place, number) in cases {
        assert!(rt; bytes.len() < 1 << 32);
        match read_job(rt.alloc(), bytes) {
            Err(JobFault::At { offset, kind }) => {
                assert_eq!(rt; kind.number(), *number, "in {bytes:?}");
                assert_eq!(rt; offset, *place, "in {bytes:?}");
            }
            Err(JobFault::NoMemory) => panic!(rt; "no memory"),
            Ok(_) => panic!(rt; "no fault in {bytes:?}"),
        }
    }
    Ok(())
}

#[test]
fn the_33rd_font_is_one_too_many(rt: HostRuntime) -> Result<(), Fail> {
    let mut bytes = Vec::new(rt.alloc());
    for letter in b'a'..=b'z' {
        bytes.extend_from_slice(&[
            b'\\', b'f', b'o', b'n', b't', b'\\', letter, b'=', b't', b' ',
        ])?;
    }
    for letter in b'A'..=b'G' {
        bytes.extend_from_slice(&[
            b'\\', b'f', b'o', b'n', b't', b'\\', letter, b'=', b't', b' ',
        ])?;
    }
    let bytes = bytes.as_slice();
    assert!(rt; bytes.len() < 1 << 32);
    match read_job(rt.alloc(), bytes) {
        Err(JobFault::At { offset, kind }) => {
            assert_eq!(rt; kind, JobFaultKind::TooManyFonts);
            assert_eq!(rt; offset, 320);
        }
        _ => panic!(rt; "no fault"),
    }
    Ok(())
}

/// A job of so many paragraphs, each of one letter; the first begins at byte 13.
fn paragraphs_of_a_letter(alloc: Global, count: u32) -> Result<Vec<u8>, Fail> {
    let mut bytes = Vec::new(alloc);
    bytes.extend_from_slice(b"\\font\\f=t \\f ")?;
    for _ in 0..count {
        bytes.extend_from_slice(b"a\n\n")?;
    }
    Ok(bytes)
}

#[test]
fn the_65536th_paragraph_is_one_too_many(rt: HostRuntime) -> Result<(), Fail> {
    let most = paragraphs_of_a_letter(rt.alloc(), 65_535)?;
    let most = most.as_slice();
    assert!(rt; most.len() < 1 << 32);
    let job = read_job(rt.alloc(), most)?;
    assert_eq!(rt; job.pars.len(), 65_535);
    let more = paragraphs_of_a_letter(rt.alloc(), 65_536)?;
    let more = more.as_slice();
    assert!(rt; more.len() < 1 << 32);
    match read_job(rt.alloc(), more) {
        Err(JobFault::At { offset, kind }) => {
            assert_eq!(rt; kind, JobFaultKind::TooManyParagraphs);
            assert_eq!(rt; offset, 13 + 3 * 65_535);
        }
        _ => panic!(rt; "no fault"),
    }
    Ok(())
}

#[test]
fn a_job_is_read(rt: HostRuntime) -> Result<(), Fail> {
    let job = read_job(
        rt.alloc(),
        b"\\font\\f=tiny10 at 12pt \\f\\hsize=1IN\n\\noindent ab {\\char99}\n\nx\\bye }",
    )?;
    let [font] = job.fonts.as_slice() else {
        panic!(rt; "one font");
    };
    assert_eq!(rt; font.name.as_slice(), b"tiny10".as_slice());
    assert_eq!(rt; font.size, Size::At { size: 786432 });
    let [first, second] = job.pars.as_slice() else {
        panic!(rt; "two paragraphs");
    };
    assert_eq!(rt; first.params.hsize, 4736286);
    assert!(rt; !first.indent);
    assert!(rt; second.indent);
    assert_eq!(rt; first.parts.len(), 7);
    let [start, letter] = second.parts.as_slice() else {
        panic!(rt; "two parts");
    };
    assert!(rt; matches!(start.part, Part::Font { font: 0 }));
    assert!(rt; matches!(letter.part, Part::Char { code: 120 }));
    assert_eq!(rt; start.offset, 60);
    assert_eq!(rt; letter.offset, 60);
    Ok(())
}

/// A paragraph by its number from 0, its looseness, hangindent and hangafter, how many lines its
/// shape has, and the width of the last of them.
type Settings = (usize, i32, i32, i32, usize, i32);

#[test]
fn settings_of_a_paragraph_end_with_it(rt: HostRuntime) -> Result<(), Fail> {
    let cases: &[(&[u8], Settings)] = &[
        (b"\\looseness=-1 {}\\par{}", (0, -1, 0, 1, 0, 0)),
        (b"\\looseness=-1 {}\\par{}", (1, 0, 0, 1, 0, 0)),
        (b"\\hangindent 2pt{}\n\n{}", (0, 0, 131072, 1, 0, 0)),
        (b"\\hangindent 2pt{}\n\n{}", (1, 0, 0, 1, 0, 0)),
        (b"\\hangafter=3{}\\par\\relax{}", (0, 0, 0, 3, 0, 0)),
        (b"\\hangafter=3{}\\par\\relax{}", (1, 0, 0, 1, 0, 0)),
        (
            b"\\parshape 2 1pt 2pt 0pt3pt{}\\par{}",
            (0, 0, 0, 1, 2, 196608),
        ),
        (b"\\parshape 2 1pt 2pt 0pt3pt{}\\par{}", (1, 0, 0, 1, 0, 0)),
        (b"\\parshape 1 1pt 2pt\\parshape-1{}", (0, 0, 0, 1, 0, 0)),
        (
            b"\\looseness2\\hangafter-3\\par\\relax{}\\bye{}",
            (0, 2, 0, -3, 0, 0),
        ),
    ];
    for (bytes, (number, looseness, hangindent, hangafter, lines, width)) in cases {
        assert!(rt; bytes.len() < 1 << 32);
        let job = read_job(rt.alloc(), bytes)?;
        let Some(par) = job.pars.as_slice().get(*number) else {
            panic!(rt; "too few paragraphs in {bytes:?}");
        };
        assert_eq!(rt; par.params.looseness, *looseness, "in {bytes:?}");
        assert_eq!(rt; par.params.hangindent, *hangindent, "in {bytes:?}");
        assert_eq!(rt; par.params.hangafter, *hangafter, "in {bytes:?}");
        assert_eq!(rt; par.shape.len(), *lines, "in {bytes:?}");
        let last = par.shape.as_slice().last().map_or(0, |line| line.width);
        assert_eq!(rt; last, *width, "in {bytes:?}");
    }
    Ok(())
}
