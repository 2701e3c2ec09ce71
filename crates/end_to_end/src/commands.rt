//! What each command writes and tells.
use crate::runs::{Failing, SET, SOUND, run_tiny};
use pdfmicro_run::Answer;
use std::test::Fail;
use test_jobs::{EXPANDED, FOUR_WORDS, HYPHENATED};

#[test]
fn other_words_are_bad(rt: HostRuntime) -> Result<(), Fail> {
    let failing = Failing {
        reads: &[1],
        ..SOUND
    };
    let words: [&[&str]; 11] = [
        &["pdfmicro", "set"],
        &["pdfmicro", "set", "j", "j"],
        &["pdfmicro", "sets", "j"],
        &["pdfmicro", "gen", "0"],
        &["pdfmicro", "gen", "20001"],
        &["pdfmicro", "gen", "01x"],
        &["pdfmicro", "--workers", "65", "gen", "1"],
        &["pdfmicro", "breaks", "j", "--workers", "0"],
        &["pdfmicro", "--help"],
        &["pdfmicro"],
        &[],
    ];
    for words in words {
        let run = run_tiny(&rt, rt.alloc(), words, EXPANDED, &failing)?;
        assert_eq!(rt; run.answer, Answer::BadWords);
        assert_eq!(rt; run.status, 2);
        assert_eq!(rt; run.told(), "pdfmicro: bad words\n");
    }
    Ok(())
}

#[test]
fn a_report_stands_behind_the_file(rt: HostRuntime) -> Result<(), Fail> {
    let report = "paragraphs 1\nlines 2\nfonts 2\ninstances 1\nbytes 240\n";
    for (words, told) in [
        (["pdfmicro", "set", "j", "--report"].as_slice(), report),
        (&["pdfmicro", "--report", "--workers=8", "set", "j"], report),
        (&["pdfmicro", "set", "j"], ""),
    ] {
        let run = run_tiny(&rt, rt.alloc(), words, EXPANDED, &SOUND)?;
        assert_eq!(rt; run.answer, Answer::Done);
        assert_eq!(rt; run.written.len(), 240);
        assert_eq!(rt; run.told(), told);
        assert_eq!(rt; run.owners().len(), 1);
    }
    Ok(())
}

#[test]
fn a_paragraph_is_told_with_its_breaks(rt: HostRuntime) -> Result<(), Fail> {
    let words = ["pdfmicro", "breaks", "j", "--report"];
    for (job, line) in [
        (FOUR_WORDS, "paragraph 1 pass 2 total 43124 breaks 5 13\n"),
        (HYPHENATED, "paragraph 1 pass 2 total 2600 breaks 5 10\n"),
    ] {
        let run = run_tiny(&rt, rt.alloc(), &words, job, &SOUND)?;
        assert_eq!(rt; run.answer, Answer::Done);
        assert_eq!(rt; run.told(), line);
        assert_eq!(rt; run.written.len(), 0);
        assert!(rt; run.closed.is_none());
    }
    Ok(())
}

#[test]
fn no_line_is_told_before_all_are_broken(rt: HostRuntime) -> Result<(), Fail> {
    let job = b"\\font\\f=tiny10 \\f\na\n\n\\char200 a\n\na\n";
    let run = run_tiny(&rt, rt.alloc(), &["pdfmicro", "breaks", "j"], job, &SOUND)?;
    assert_eq!(rt; run.status, 1);
    assert_eq!(rt; run.told(), "pdfmicro: paragraph 2: fault 1 at 21\n");
    Ok(())
}

#[test]
fn a_line_that_is_out_of_range_is_broken(rt: HostRuntime) -> Result<(), Fail> {
    let job = b"\\font\\f=tiny10 \\f\n\\hsize=100pt\n\\noindent \\kern1073741823sp a\n";
    let told = run_tiny(&rt, rt.alloc(), &["pdfmicro", "breaks", "j"], job, &SOUND)?;
    assert_eq!(rt; told.answer, Answer::Done);
    let set = run_tiny(&rt, rt.alloc(), SET, job, &SOUND)?;
    assert_eq!(rt; set.told(), "pdfmicro: paragraph 1: fault 5 at 1\n");
    Ok(())
}

#[test]
fn a_job_without_paragraphs_has_no_lines(rt: HostRuntime) -> Result<(), Fail> {
    let failing = Failing {
        lines: &[1],
        ..SOUND
    };
    let run = run_tiny(&rt, rt.alloc(), &["pdfmicro", "breaks", "j"], b"", &failing)?;
    assert_eq!(rt; run.answer, Answer::Done);
    assert_eq!(rt; run.told(), "");
    Ok(())
}

#[test]
fn a_generated_document_is_reported_and_not_written(rt: HostRuntime) -> Result<(), Fail> {
    let failing = Failing {
        reads: &[1, 2],
        writes: &[1],
        ..SOUND
    };
    let first = run_tiny(&rt, rt.alloc(), &["pdfmicro", "gen", "20"], b"", &failing)?;
    assert_eq!(rt; first.answer, Answer::Done);
    assert_eq!(rt; first.written.len(), 0);
    assert!(rt; first.told().starts_with("paragraphs 20\nlines "));
    for workers in ["3", "8"] {
        let words = ["pdfmicro", "gen", "20", "--workers", workers];
        let again = run_tiny(&rt, rt.alloc(), &words, b"", &failing)?;
        assert_eq!(rt; again.told(), first.told());
        assert_eq!(rt; again.owners().len(), first.owners().len());
    }
    Ok(())
}
