//! Jobs and their answers.
use crate::runs::set;
use hlist_build::ParFault;
use instance_core::{Cell, Owner};
use items::Items;
use job_fonts::FontFaultKind;
use job_text::JobFaultKind;
use para_workers::ParAt;
use pdfmicro_run::Answer;
use std::alloc::Global;
use std::test::Fail;
use std::thread::Threads;
use test_fonts::{ligature10, tiny10};
use test_jobs::{EXPANDED, THREE_LETTERS};
use tfm_read::TfmFaultKind;

/// The file of three letters, 172 bytes.
const FILE: [u8; 172] = [
    247, 2, 1, 131, 146, 192, 28, 59, 0, 0, 0, 0, 3, 232, 16, 32, 112, 100, 102, 109, 105, 99, 114,
    111, 32, 111, 117, 116, 112, 117, 116, 139, 0, 0, 0, 1, 0, 0, 0, 0, 0, 0, 0, 0, 0, 0, 0, 0, 0,
    0, 0, 0, 0, 0, 0, 0, 0, 0, 0, 0, 0, 0, 0, 0, 0, 0, 0, 0, 0, 0, 0, 0, 255, 255, 255, 255, 159,
    5, 0, 0, 141, 243, 0, 0, 0, 0, 0, 0, 10, 0, 0, 0, 10, 0, 0, 0, 6, 116, 105, 110, 121, 49, 48,
    171, 97, 98, 99, 142, 140, 248, 0, 0, 0, 31, 1, 131, 146, 192, 28, 59, 0, 0, 0, 0, 3, 232, 0,
    5, 0, 0, 0, 100, 0, 0, 0, 1, 0, 1, 243, 0, 0, 0, 0, 0, 0, 10, 0, 0, 0, 10, 0, 0, 0, 6, 116,
    105, 110, 121, 49, 48, 249, 0, 0, 0, 109, 2, 223, 223, 223, 223, 223, 223,
];

#[test]
fn three_letters_are_172_bytes(rt: HostRuntime) -> Result<(), Fail> {
    let font = tiny10(rt.alloc())?;
    let run = set(&rt, rt.alloc(), THREE_LETTERS, font.as_slice())?;
    assert_eq!(rt; run.status, 0);
    assert_eq!(rt; run.answer, Answer::Done);
    assert_eq!(rt; run.written.as_slice(), FILE.as_slice());
    Ok(())
}

/// A job, what it is answered, and how many bytes are written.
type Case = (&'static [u8], Answer, usize);

/// The number of the first job that ends otherwise than is told, set in the font `tiny10`.
fn first_other<R: Threads + Sync>(
    rt: &R,
    alloc: Global,
    cases: &[Case],
) -> Result<Option<usize>, Fail> {
    let font = tiny10(alloc)?;
    for (number, (job, answer, length)) in cases.iter().enumerate() {
        let run = set(rt, alloc, job, font.as_slice())?;
        let same = run.answer == *answer
            && run.status == answer.status()
            && run.written.len() == *length;
        if !same {
            return Ok(Some(number));
        }
    }
    Ok(None)
}

#[test]
fn jobs_of_one_line_each_are_set(rt: HostRuntime) -> Result<(), Fail> {
    let cases: &[Case] = &[
        (b"", Answer::Done, 72),
        (b"\\font\\f=tiny10 \\f\n\\hsize=100pt\n", Answer::Done, 72),
        (b"\\font\\f=tiny10 \\hsize=0pt", Answer::Done, 72),
        (
            b"\\font\\f=tiny10 \\f\n\\hsize=15pt\n\\noindent abc\n",
            Answer::Done,
            172,
        ),
        (
            b"\\font\\f=tiny10 \\f\n\\noindent abc\n\n\n",
            Answer::Done,
            172,
        ),
        (
            b"\\font\\f=tiny10 \\f \\noindent \\char97 !c\\par\\bye",
            Answer::Done,
            172,
        ),
        (
            b"\\font\\f=tiny10 \\hyphenchar\\f=-1 \\f\\noindent a-b",
            Answer::Done,
            172,
        ),
        (
            b"\\font\\f=tiny10 \\f\\hsize=15pt\\noindent abc\n\n\\hsize=1in\\noindent abc\n",
            Answer::Done,
            228,
        ),
    ];
    assert_eq!(rt; first_other(&rt, rt.alloc(), cases)?, None);
    Ok(())
}

#[test]
fn a_line_that_is_too_long_is_set(rt: HostRuntime) -> Result<(), Fail> {
    let cases: &[Case] = &[
        (
            b"\\font\\f=tiny10 \\f\n\\hsize=10pt\n\\noindent abc\n",
            Answer::Done,
            172,
        ),
        (
            b"\\font\\f=tiny10 \\f\\hsize=0pt\\noindent abc",
            Answer::Done,
            172,
        ),
        (
            b"\\font\\f=tiny10 \\f\\hsize=-1pt\\noindent abc",
            Answer::Done,
            172,
        ),
        (
            b"\\font\\f=tiny10 \\f\\noindent abc\n\n\\hsize=14pt\\noindent abc\n",
            Answer::Done,
            228,
        ),
    ];
    assert_eq!(rt; first_other(&rt, rt.alloc(), cases)?, None);
    Ok(())
}

#[test]
fn fonts_and_parameters_that_change_no_line_change_no_byte(rt: HostRuntime) -> Result<(), Fail> {
    let cases: &[Case] = &[
        (
            b"\\font\\f=tiny10 \\font\\g=tiny10 \\f\\noindent abc",
            Answer::Done,
            172,
        ),
        (
            b"\\font\\f=tiny10 at 10pt \\f\\noindent abc",
            Answer::Done,
            172,
        ),
        (
            b"\\font\\f=tiny10 scaled 1000 \\f\\noindent abc",
            Answer::Done,
            172,
        ),
        (
            b"\\font\\f=tiny10 \\pdffontexpand\\f 20 20 1 \\f\\noindent abc",
            Answer::Done,
            172,
        ),
        (
            b"\\font\\f=tiny10 \\f\\parindent=0pt\\noindent abc",
            Answer::Done,
            172,
        ),
        (
            b"\\font\\f=tiny10 \\f\\tolerance=201 \\noindent abc",
            Answer::Done,
            172,
        ),
        (
            b"\\font\\f=tiny10 \\f\\rightskip=0pt plus 1sp\\noindent abc",
            Answer::Done,
            172,
        ),
    ];
    assert_eq!(rt; first_other(&rt, rt.alloc(), cases)?, None);
    Ok(())
}

#[test]
fn a_move_takes_four_bytes(rt: HostRuntime) -> Result<(), Fail> {
    // Two letters for three, and one move of 32,768 sp or more where there is a space.
    let cases: &[Case] = &[
        (b"\\font\\f=tiny10 \\f abc", Answer::Done, 176),
        (
            b"\\font\\f=tiny10 \\f\n\\hsize=100pt\n\\noindent a c\n",
            Answer::Done,
            176,
        ),
        (b"\\font\\f=tiny10 \\f\\noindent a~b", Answer::Done, 176),
        (
            b"\\font\\f=tiny10 \\f\\noindent a\\kern1pt b",
            Answer::Done,
            176,
        ),
        (b"\\font\\f=tiny10 \\f\\noindent a-b", Answer::Done, 172),
        (
            b"\\font\\f=tiny10 \\hyphenchar\\f=98 \\f\\noindent abc",
            Answer::Done,
            172,
        ),
        (b"\\font\\f=tiny10 \\f\\noindent a\\f b", Answer::Done, 172),
        (b"\\font\\f=tiny10 \\f\\noindent abc \\ ", Answer::Done, 172),
    ];
    assert_eq!(rt; first_other(&rt, rt.alloc(), cases)?, None);
    Ok(())
}

#[test]
fn a_fault_of_the_job_is_told_with_its_place(rt: HostRuntime) -> Result<(), Fail> {
    let cases: &[Case] = &[
        (b"\\foo", fault(0, JobFaultKind::UnknownWord), 0),
        (b"abc", fault(0, JobFaultKind::NoFont), 0),
        (
            b"\\font\\f=other \\f\\noindent {",
            fault(26, JobFaultKind::UnclosedGroup),
            0,
        ),
        (
            b"\\font\\f=tiny10 \\f\n\\hsize=16384pt\n",
            fault(25, JobFaultKind::DimensionTooLarge),
            0,
        ),
        (b"\\noindent a\x7f", fault(11, JobFaultKind::BadByte), 0),
    ];
    assert_eq!(rt; first_other(&rt, rt.alloc(), cases)?, None);
    Ok(())
}

/// The answer to a job with such a fault at such a place.
fn fault(offset: u32, kind: JobFaultKind) -> Answer {
    Answer::Job { offset, kind }
}

#[test]
fn a_font_that_is_not_there_is_told(rt: HostRuntime) -> Result<(), Fail> {
    let cases: &[Case] = &[(
        b"\\font\\f=other \\f\n\\hsize=100pt\n",
        Answer::Absent { file: 1 },
        0,
    )];
    assert_eq!(rt; first_other(&rt, rt.alloc(), cases)?, None);
    Ok(())
}

#[test]
fn each_font_has_its_answer(rt: HostRuntime) -> Result<(), Fail> {
    let font = tiny10(rt.alloc())?;
    let ligature = ligature10(rt.alloc())?;
    let run = set(&rt, rt.alloc(), THREE_LETTERS, ligature.as_slice())?;
    assert_eq!(rt; run.written.as_slice(), FILE.as_slice());
    for words in [0, 25, 114] {
        let cut = font.get(..4 * words as usize).ok_or("no font")?;
        let run = set(&rt, rt.alloc(), THREE_LETTERS, cut)?;
        let kind = FontFaultKind::Tfm {
            kind: TfmFaultKind::Short,
        };
        assert_eq!(rt;
            run.answer,
            Answer::Font {
                font: 0,
                kind,
                word: words
            }
        );
        assert_eq!(rt; run.status, 1);
    }
    Ok(())
}

#[test]
fn a_missing_character_is_told_with_its_paragraph(rt: HostRuntime) -> Result<(), Fail> {
    let mut missing = tiny10(rt.alloc())?;
    if let Some(width) = missing.get_mut(4 * (8 + 98 - 33)) {
        *width = 0;
    }
    let run = set(&rt, rt.alloc(), THREE_LETTERS, missing.as_slice())?;
    let fault = ParFault::MissingChar { offset: 42 };
    assert_eq!(rt; run.answer, par(1, fault));
    assert_eq!(rt; run.written.len(), 0);
    let cases: &[Case] = &[(
        b"\\font\\f=tiny10 \\f\na\n\n\\char200 a\n\na\n\na\n\n\\char200\n",
        par(2, ParFault::MissingChar { offset: 21 }),
        0,
    )];
    assert_eq!(rt; first_other(&rt, rt.alloc(), cases)?, None);
    Ok(())
}

/// The answer to a paragraph of a number with such a fault.
fn par(paragraph: u32, fault: ParFault) -> Answer {
    Answer::Par {
        at: ParAt { paragraph, fault },
    }
}

#[test]
fn the_greatest_size_is_one_below_the_bound(rt: HostRuntime) -> Result<(), Fail> {
    let past = Answer::Font {
        font: 1,
        kind: FontFaultKind::SizePast,
        word: 0,
    };
    let cases: &[Case] = &[
        (
            b"\\font\\f=tiny10 \\font\\g=tiny10 at 134217727sp \\f",
            Answer::Done,
            72,
        ),
        (
            b"\\font\\f=tiny10 \\font\\g=tiny10 at 134217728sp \\f",
            past,
            0,
        ),
        (
            b"\\font\\f=tiny10 \\font\\g=tiny10 at 134217728sp \\font\\h=other \\f",
            past,
            0,
        ),
    ];
    assert_eq!(rt; first_other(&rt, rt.alloc(), cases)?, None);
    Ok(())
}

/// The instances that a run of a job in the font `tiny10` built.
fn owners<R: Threads + Sync>(rt: &R, alloc: Global, job: &[u8]) -> Result<Items<Owner>, Fail> {
    let font = tiny10(alloc)?;
    let run = set(rt, alloc, job, font.as_slice())?;
    Ok(Items::from_slice(alloc, run.owners())?)
}

/// An instance of the first font, built by the first worker.
fn owner(step: i32) -> Owner {
    Owner {
        cell: Cell { font: 0, step },
        worker: 1,
    }
}

#[test]
fn expanded_fonts_are_owned_by_the_first_worker(rt: HostRuntime) -> Result<(), Fail> {
    let cases: &[Case] = &[(EXPANDED, Answer::Done, 240)];
    assert_eq!(rt; first_other(&rt, rt.alloc(), cases)?, None);
    let found = owners(&rt, rt.alloc(), EXPANDED)?;
    assert_eq!(rt; found.as_slice(), [owner(20)].as_slice());
    let found = owners(
        &rt,
        rt.alloc(),
        b"\\font\\f=tiny10 \\f\n\\hsize=24pt \\pdffontexpand\\f 20 20 1 \\efcode\\f 97=0 \
        \\pdfadjustspacing=2\n\\noindent aa bb cc dd\n",
    )?;
    assert_eq!(rt; found.as_slice(), [owner(20)].as_slice());
    let found = owners(
        &rt,
        rt.alloc(),
        b"\\font\\f=tiny10 \\f\n\\hsize=22pt \\pdffontexpand\\f 20 20 1 \\pdfadjustspacing=2\n\
        \\noindent aa bb cc dd\n\n\\hsize=24pt \\noindent aa bb cc dd\n",
    )?;
    assert_eq!(rt; found.as_slice(), [owner(-20), owner(20)].as_slice());
    Ok(())
}

#[test]
fn fonts_that_expand_otherwise_are_refused(rt: HostRuntime) -> Result<(), Fail> {
    let cases: &[Case] = &[(
        b"\\font\\f=tiny10 \\f\n\\hsize=24pt \\pdffontexpand\\f 20 20 1 \\pdfadjustspacing=2 \
        \\font\\g=tiny10 at 12pt \\pdffontexpand\\g 30 20 1\n\\noindent a{\\g b}\n",
        par(1, ParFault::MixedExpansion { font: 1 }),
        0,
    )];
    assert_eq!(rt; first_other(&rt, rt.alloc(), cases)?, None);
    Ok(())
}
