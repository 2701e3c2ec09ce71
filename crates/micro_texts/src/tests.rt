//! Texts worked out by hand.
use crate::answer::Answer;
use crate::broken::breaks_line;
use crate::fixed::fixed_line;
use crate::messages::message;
use crate::reports::{report_of, report_text};
use hlist::HList;
use hlist_build::ParFault;
use instance_core::{Cell, Packed, Page, PageLine};
use items::{Items, Text};
use job_fonts::FontFaultKind;
use job_reading::JobFaultKind;
use para_workers::ParAt;
use paragraph_breaks::Broken;
use std::alloc::Global;
use std::test::Fail;
use tfm_read::TfmFaultKind;

/// What is wrong with a paragraph.
fn par(paragraph: u32, fault: ParFault) -> Answer {
    Answer::Par {
        at: ParAt { paragraph, fault },
    }
}

/// A fault of a job.
fn job(offset: u32, kind: JobFaultKind) -> Answer {
    Answer::Job { offset, kind }
}

/// A fault of a font.
fn font(font: u32, kind: FontFaultKind, word: u32) -> Answer {
    Answer::Font { font, kind, word }
}

/// A short file.
const SHORT: FontFaultKind = FontFaultKind::Tfm {
    kind: TfmFaultKind::Short,
};

#[test]
fn each_answer_has_its_line_and_its_status(rt: HostRuntime) -> Result<(), Fail> {
    let cases: &[(Answer, u8, &str)] = &[
        (
            job(18, JobFaultKind::TooManyCells),
            1,
            "job: offset 18: fault 14",
        ),
        (font(0, SHORT, 114), 1, "font 1: word 114: fault 1"),
        (
            font(31, FontFaultKind::WideKern, 0),
            1,
            "font 32: word 0: fault 13",
        ),
        (
            par(2, ParFault::MissingChar { offset: 21 }),
            1,
            "paragraph 2: fault 1 at 21",
        ),
        (
            par(1, ParFault::LigTooLong { offset: 25 }),
            1,
            "paragraph 1: fault 2 at 25",
        ),
        (
            par(65535, ParFault::TooManyItems),
            1,
            "paragraph 65535: fault 3 at 16384",
        ),
        (
            par(1, ParFault::MixedExpansion { font: 1 }),
            1,
            "paragraph 1: fault 4 at 2",
        ),
        (
            par(1, ParFault::OutOfRange { line: 3 }),
            1,
            "paragraph 1: fault 5 at 3",
        ),
        (
            Answer::DviTooLong {
                bytes: 2_147_483_648,
            },
            1,
            "output of 2147483648 bytes is too long",
        ),
        (Answer::BadWords, 2, "bad words"),
        (Answer::Absent { file: 1 }, 3, "a.tfm: not found"),
        (Answer::ReadFault { file: 1 }, 4, "a.tfm: read failed"),
        (Answer::OutFault, 5, "output failed"),
        (Answer::NoMemory, 7, "no memory"),
        (Answer::FileTooLong { file: 1 }, 8, "a.tfm: too long"),
    ];
    for (answer, status, text) in cases {
        let line = message(rt.alloc(), answer, "a.tfm")?;
        let told = line.as_ref().map_or("", |line| line.as_str());
        let wanted = format!(in rt.alloc(); "pdfmicro: {text}\n")?;
        assert_eq!(rt; told, wanted.as_str());
        assert_eq!(rt; answer.status(), *status, "in {text}");
    }
    Ok(())
}

#[test]
fn three_lines_are_fixed_and_two_answers_have_none(rt: HostRuntime) -> Result<(), Fail> {
    assert_eq!(rt;
        fixed_line(&Answer::BadWords),
        Some("pdfmicro: bad words\n")
    );
    assert_eq!(rt;
        fixed_line(&Answer::OutFault),
        Some("pdfmicro: output failed\n")
    );
    assert_eq!(rt;
        fixed_line(&Answer::NoMemory),
        Some("pdfmicro: no memory\n")
    );
    assert_eq!(rt; fixed_line(&Answer::Absent { file: 0 }), None);
    assert!(rt; message(rt.alloc(), &Answer::Done, "a.job")?.is_none());
    assert!(rt; message(rt.alloc(), &Answer::TalkFault, "a.job")?.is_none());
    assert_eq!(rt; Answer::Done.status(), 0);
    assert_eq!(rt; Answer::TalkFault.status(), 6);
    Ok(())
}

/// A line without glyphs.
fn empty_line(alloc: Global, baseline: i32) -> PageLine {
    PageLine {
        baseline,
        line: Packed {
            glyphs: Items::new(alloc),
            height: 0,
            depth: 0,
            width: 0,
        },
    }
}

#[test]
fn a_report_counts_lines_and_instances(rt: HostRuntime) -> Result<(), Fail> {
    let alloc = rt.alloc();
    let mut lines = Items::new(alloc);
    lines.push(empty_line(alloc, 327_680))?;
    lines.push(empty_line(alloc, 1_114_112))?;
    let page = Page {
        lines,
        extent: 1_114_112,
        width: 0,
    };
    let pages = vec![in alloc; page]?;
    let cells = [Cell { font: 0, step: 20 }, Cell { font: 0, step: 0 }];
    let report = report_of(pages.as_slice(), &cells, 240);
    let text = report_text(alloc, &report)?;
    let wanted = "paragraphs 1\nlines 2\nfonts 2\ninstances 1\nbytes 240\n";
    assert_eq!(rt; text.as_str(), wanted);
    Ok(())
}

/// The line of a paragraph that is broken so.
fn line_of(alloc: Global, pass: u8, total: i64, places: &[u32]) -> Result<Text, Fail> {
    let broken = Broken {
        list: HList {
            items: Items::new(alloc),
        },
        pass,
        breaks: Items::from_slice(alloc, places)?,
        total,
    };
    Ok(breaks_line(alloc, 1, &broken)?)
}

#[test]
fn a_broken_paragraph_has_its_line(rt: HostRuntime) -> Result<(), Fail> {
    let line = line_of(rt.alloc(), 2, 43124, &[5, 13])?;
    assert_eq!(rt;
        line.as_str(),
        "paragraph 1 pass 2 total 43124 breaks 5 13\n"
    );
    let line = line_of(rt.alloc(), 1, -100, &[10])?;
    assert_eq!(rt; line.as_str(), "paragraph 1 pass 1 total -100 breaks 10\n");
    Ok(())
}
