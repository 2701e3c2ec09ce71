//! Jobs that are cut, as long as a file may be, or past every size; and an outside that fails at
//! each of its calls in turn.
use crate::runs::{Failing, SET, SOUND, run_tiny, set};
use pdfmicro_run::Answer;
use std::alloc::{AllocError, Global};
use std::test::Fail;
use test_fonts::loop10;
use test_jobs::{EXPANDED, THREE_LETTERS};

/// Two paragraphs of three letters in two fonts, which are read from one file.
const TWO_FONTS: &[u8] = b"\\font\\f=tiny10 \\font\\g=tiny10 at 12pt \\f\n\\hsize=100pt\n\
    \\noindent abc\n\n\\noindent \\g abc\n";

#[test]
fn a_cut_job_is_set_or_refused(rt: HostRuntime) -> Result<(), Fail> {
    for length in 0..EXPANDED.len() {
        let job = EXPANDED.get(..length).ok_or("no job")?;
        let run = run_tiny(&rt, rt.alloc(), SET, job, &SOUND)?;
        assert!(rt; [0, 1, 3].contains(&run.status));
        let is_refused = run.status != 0;
        assert_eq!(rt; run.written.is_empty(), is_refused);
        assert_eq!(rt; run.told().is_empty(), !is_refused);
    }
    Ok(())
}

/// So many spaces, in thousands of 4,096.
fn spaces(alloc: Global) -> Result<Vec<u8>, AllocError> {
    let mut job = Vec::with_capacity(alloc, 16_777_217)?;
    for _ in 0..4096 {
        job.extend_from_slice(&[b' '; 4096])?;
    }
    Ok(job)
}

#[test]
fn a_file_may_have_16_megabytes(rt: HostRuntime) -> Result<(), Fail> {
    let mut job = spaces(rt.alloc())?;
    let longest = run_tiny(&rt, rt.alloc(), SET, job.as_slice(), &SOUND)?;
    assert_eq!(rt; longest.answer, Answer::Done);
    assert_eq!(rt; longest.written.len(), 72);
    job.push(b' ')?;
    let longer = run_tiny(&rt, rt.alloc(), SET, job.as_slice(), &SOUND)?;
    assert_eq!(rt; longer.answer, Answer::FileTooLong { file: 0 });
    assert_eq!(rt; longer.status, 8);
    assert_eq!(rt; longer.told(), "pdfmicro: j: too long\n");
    Ok(())
}

#[test]
fn a_font_whose_programs_do_not_end_is_told(rt: HostRuntime) -> Result<(), Fail> {
    let job = b"\\font\\f=tiny10 \\f\n\\hsize=100pt\n\\noindent xx\n";
    let font = loop10(rt.alloc())?;
    let run = set(&rt, rt.alloc(), job, font.as_slice())?;
    assert_eq!(rt; run.told(), "pdfmicro: paragraph 1: fault 2 at 41\n");
    assert_eq!(rt; run.written.len(), 0);
    Ok(())
}

#[test]
fn the_least_width_is_set(rt: HostRuntime) -> Result<(), Fail> {
    let job = b"\\font\\f=tiny10 \\f\n\\hsize=-16383pt\n\\noindent abc\n";
    let file = run_tiny(&rt, rt.alloc(), SET, job, &SOUND)?;
    assert_eq!(rt; file.answer, Answer::Done);
    assert_eq!(rt; file.written.len(), 172);
    // The greatest width of the pages, in the postamble.
    assert_eq!(rt; file.written.get(130..134), Some([0, 0, 0, 0].as_slice()));
    let told = run_tiny(&rt, rt.alloc(), &["pdfmicro", "breaks", "j"], job, &SOUND)?;
    assert_eq!(rt; told.told(), "paragraph 1 pass 2 total 0 breaks 5\n");
    Ok(())
}

#[test]
fn a_line_past_every_page_is_told(rt: HostRuntime) -> Result<(), Fail> {
    let job = b"\\font\\f=tiny10 \\f\n\\leftskip=16383.99999pt\n\\noindent abc\n";
    let run = run_tiny(&rt, rt.alloc(), SET, job, &SOUND)?;
    assert_eq!(rt; run.status, 1);
    assert_eq!(rt; run.told(), "pdfmicro: paragraph 1: fault 5 at 1\n");
    Ok(())
}

#[test]
fn each_read_may_fail(rt: HostRuntime) -> Result<(), Fail> {
    for (words, job, reads) in [
        (["pdfmicro", "set", "j"].as_slice(), TWO_FONTS, 3),
        (&["pdfmicro", "breaks", "j"], TWO_FONTS, 3),
        (&["pdfmicro", "set", "j", "--report"], EXPANDED, 2),
    ] {
        for read in 0..reads {
            let failing = Failing {
                reads: &[read as u64 + 1],
                ..SOUND
            };
            let run = run_tiny(&rt, rt.alloc(), words, job, &failing)?;
            assert_eq!(rt; run.answer, Answer::ReadFault { file: read });
            assert_eq!(rt; run.written.len(), 0);
        }
    }
    Ok(())
}

#[test]
fn each_text_may_fail(rt: HostRuntime) -> Result<(), Fail> {
    let first = "paragraph 1 pass 1 total 100 breaks 5\n";
    for (line, told) in [(1, ""), (2, first)] {
        let failing = Failing {
            lines: &[line],
            ..SOUND
        };
        let words = ["pdfmicro", "breaks", "j"];
        let run = run_tiny(&rt, rt.alloc(), &words, TWO_FONTS, &failing)?;
        assert_eq!(rt; run.answer, Answer::TalkFault);
        assert_eq!(rt; run.told(), told);
    }
    let failing = Failing {
        lines: &[1],
        ..SOUND
    };
    let words = ["pdfmicro", "set", "j", "--report"];
    let reported = run_tiny(&rt, rt.alloc(), &words, EXPANDED, &failing)?;
    assert_eq!(rt; reported.answer, Answer::TalkFault);
    assert_eq!(rt; reported.written.len(), 240);
    let refused = run_tiny(&rt, rt.alloc(), &words, b"\\foo", &failing)?;
    assert_eq!(rt; refused.status, 1);
    assert_eq!(rt; refused.told(), "");
    Ok(())
}

#[test]
fn an_output_without_room_fails(rt: HostRuntime) -> Result<(), Fail> {
    for room in [0, 100, 171] {
        let failing = Failing { room, ..SOUND };
        let run = run_tiny(&rt, rt.alloc(), SET, THREE_LETTERS, &failing)?;
        assert_eq!(rt; run.answer, Answer::OutFault);
        assert_eq!(rt; run.told(), "pdfmicro: output failed\n");
    }
    Ok(())
}
