//! Runs whose reads and writes fail.
use crate::runs::{Failing, Run, SET, SOUND, run_tiny};
use pdfmicro_run::Answer;
use std::alloc::{AllocError, Global};
use std::test::Fail;
use std::thread::Threads;

/// Four hundred paragraphs of three letters.
fn many_paragraphs(alloc: Global) -> Result<Vec<u8>, AllocError> {
    let mut job = Vec::new(alloc);
    job.extend_from_slice(b"\\font\\f=tiny10 \\f\n\\hsize=100pt\n\\noindent abc\n")?;
    for _ in 1..400 {
        job.extend_from_slice(b"\n\\noindent abc\n")?;
    }
    Ok(job)
}

fn with_failing<R: Threads + Sync>(
    rt: &R,
    alloc: Global,
    reads: &[u64],
    writes: &[u64],
    room: u64,
) -> Result<Run, Fail> {
    let job = many_paragraphs(alloc)?;
    let failing = Failing {
        reads,
        writes,
        lines: &[],
        room,
    };
    run_tiny(rt, alloc, SET, job.as_slice(), &failing)
}

#[test]
fn many_paragraphs_are_pages_of_their_own(rt: HostRuntime) -> Result<(), Fail> {
    let job = many_paragraphs(rt.alloc())?;
    let run = run_tiny(&rt, rt.alloc(), SET, job.as_slice(), &SOUND)?;
    assert_eq!(rt; run.answer, Answer::Done);
    assert_eq!(rt; run.written.len(), 22_516);
    Ok(())
}

#[test]
fn a_failing_read_is_told_with_its_file(rt: HostRuntime) -> Result<(), Fail> {
    for (read, answer) in [
        (1, Answer::ReadFault { file: 0 }),
        (2, Answer::ReadFault { file: 1 }),
        (3, Answer::Done),
    ] {
        let run = with_failing(&rt, rt.alloc(), &[read], &[], 100_000)?;
        assert_eq!(rt; run.answer, answer);
        if read < 3 {
            assert_eq!(rt; run.status, 4);
            assert_eq!(rt; run.written.len(), 0);
        }
    }
    Ok(())
}

#[test]
fn a_failing_write_leaves_the_pieces_before_it(rt: HostRuntime) -> Result<(), Fail> {
    for (write, length, answer) in [
        (1, 0, Answer::OutFault),
        (2, 16_384, Answer::OutFault),
        (3, 22_516, Answer::Done),
    ] {
        let run = with_failing(&rt, rt.alloc(), &[], &[write], 100_000)?;
        assert_eq!(rt; run.answer, answer);
        assert_eq!(rt; run.written.len(), length);
    }
    let full = with_failing(&rt, rt.alloc(), &[], &[], 20_000)?;
    assert_eq!(rt; full.answer, Answer::OutFault);
    assert_eq!(rt; full.status, 5);
    assert_eq!(rt; full.written.len(), 16_384);
    Ok(())
}
