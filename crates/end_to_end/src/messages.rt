//! The message of each answer.
use crate::runs::{Failing, SET, SOUND, run_tiny, run_words};
use pdfmicro_run::Answer;
use std::test::Fail;
use test_jobs::THREE_LETTERS;

#[test]
fn a_fault_has_its_line(rt: HostRuntime) -> Result<(), Fail> {
    let cases: &[(&[u8], u8, &str)] = &[
        (b"\\foo", 1, "pdfmicro: job: offset 0: fault 1\n"),
        (
            b"\\font\\f=tiny10 \\font\\g=tiny10 at 134217728sp \\f",
            1,
            "pdfmicro: font 2: word 0: fault 11\n",
        ),
        (
            b"\\font\\f=tiny10 \\f\na\n\n\\char200 a\n",
            1,
            "pdfmicro: paragraph 2: fault 1 at 21\n",
        ),
        (
            b"\\font\\f=other \\f a\n",
            3,
            "pdfmicro: other.tfm: not found\n",
        ),
    ];
    for (job, status, line) in cases {
        let run = run_tiny(&rt, rt.alloc(), SET, job, &SOUND)?;
        assert_eq!(rt; run.status, *status);
        assert_eq!(rt; run.told(), *line);
        assert_eq!(rt; run.written.len(), 0);
    }
    Ok(())
}

#[test]
fn a_failed_read_is_told_by_the_name_of_its_file(rt: HostRuntime) -> Result<(), Fail> {
    for (read, line) in [
        (1, "pdfmicro: j: read failed\n"),
        (2, "pdfmicro: tiny10.tfm: read failed\n"),
    ] {
        let failing = Failing {
            reads: &[read],
            ..SOUND
        };
        let run = run_tiny(&rt, rt.alloc(), SET, THREE_LETTERS, &failing)?;
        assert_eq!(rt; run.status, 4);
        assert_eq!(rt; run.told(), line);
    }
    Ok(())
}

#[test]
fn a_job_that_is_not_there_is_told_by_its_name(rt: HostRuntime) -> Result<(), Fail> {
    let words = ["pdfmicro", "set", "k.job"];
    let run = run_words(&rt, rt.alloc(), &words, THREE_LETTERS, b"", &SOUND)?;
    assert_eq!(rt; run.answer, Answer::Absent { file: 0 });
    assert_eq!(rt; run.told(), "pdfmicro: k.job: not found\n");
    Ok(())
}

#[test]
fn a_failed_output_is_told(rt: HostRuntime) -> Result<(), Fail> {
    let failing = Failing {
        writes: &[1],
        ..SOUND
    };
    let run = run_tiny(&rt, rt.alloc(), SET, THREE_LETTERS, &failing)?;
    assert_eq!(rt; run.status, 5);
    assert_eq!(rt; run.told(), "pdfmicro: output failed\n");
    Ok(())
}

#[test]
fn a_message_that_fails_changes_no_answer(rt: HostRuntime) -> Result<(), Fail> {
    let failing = Failing {
        writes: &[1],
        lines: &[1],
        ..SOUND
    };
    let run = run_tiny(&rt, rt.alloc(), SET, THREE_LETTERS, &failing)?;
    assert_eq!(rt; run.answer, Answer::OutFault);
    assert_eq!(rt; run.told(), "");
    Ok(())
}

#[test]
fn a_report_that_fails_has_no_line(rt: HostRuntime) -> Result<(), Fail> {
    let failing = Failing {
        lines: &[1],
        ..SOUND
    };
    let words = ["pdfmicro", "set", "j", "--report"];
    let run = run_tiny(&rt, rt.alloc(), &words, THREE_LETTERS, &failing)?;
    assert_eq!(rt; run.answer, Answer::TalkFault);
    assert_eq!(rt; run.status, 6);
    assert_eq!(rt; run.written.len(), 172);
    assert_eq!(rt; run.told(), "");
    Ok(())
}
