//! Runs by several workers: what they write is what one writes, and they set paragraphs beside one
//! another.
use crate::runs::{Run, SOUND, run_gated, run_tiny, run_words};
use hlist_build::ParFault;
use instance_core::Cell;
use outside_io::Gate;
use para_workers::ParAt;
use pdfmicro_run::Answer;
use std::alloc::Global;
use std::test::Fail;
use std::thread::Threads;
use test_fonts::{lig10, tiny10};
use test_jobs::{EXPANDED, FOUR_LINES, NARROW_AND_WIDE, SHARING, TWO_FAULTS, long_job};
use thread_tests::{BuildGate, DrawGate};

/// How many turns a worker is held at most.
const TURNS: u32 = 200_000_000;

/// Sets the job in the font `tiny10` by so many workers.
fn set_by<R: Threads + Sync>(
    rt: &R,
    alloc: Global,
    job: &[u8],
    workers: &str,
) -> Result<Run, Fail> {
    let words = ["pdfmicro", "set", "j", "--workers", workers];
    run_tiny(rt, alloc, &words, job, &SOUND)
}

/// Sets the job in the font `tiny10` by two workers that pass a gate.
fn set_gated<R: Threads + Sync, G: Gate + Sync>(
    rt: &R,
    alloc: Global,
    job: &[u8],
    gate: &G,
) -> Result<Run, Fail> {
    let words = ["pdfmicro", "set", "j", "--workers", "2"];
    run_gated(
        rt,
        alloc,
        &words,
        job,
        tiny10(alloc)?.as_slice(),
        &SOUND,
        gate,
    )
}

/// The run has set its job by so many workers, with this file, and built these instances.
fn has_set(run: &Run, workers: u32, file: &[u8], cells: &[Cell]) -> bool {
    let owners = run.owners();
    run.answer == Answer::Done
        && run.written.as_slice() == file
        && owners.len() == cells.len()
        && owners.iter().zip(cells).all(|(owner, cell)| {
            owner.cell == *cell && owner.worker >= 1 && owner.worker <= workers
        })
}

#[test]
fn a_job_is_set_the_same_by_any_number_of_workers(rt: HostRuntime) -> Result<(), Fail> {
    let file = set_by(&rt, rt.alloc(), EXPANDED, "1")?.written;
    assert_eq!(rt; file.len(), 240);
    let cells = [Cell { font: 0, step: 20 }];
    for (words, workers) in [("1", 1), ("2", 2), ("7", 7), ("64", 64)] {
        let run = set_by(&rt, rt.alloc(), EXPANDED, words)?;
        assert!(rt; has_set(&run, workers, file.as_slice(), &cells));
    }
    Ok(())
}

#[test]
fn fonts_are_numbered_by_first_use_whoever_builds_them(rt: HostRuntime) -> Result<(), Fail> {
    let file = set_by(&rt, rt.alloc(), NARROW_AND_WIDE, "1")?.written;
    let cells = [Cell { font: 0, step: -20 }, Cell { font: 0, step: 20 }];
    for (words, workers) in [("2", 2), ("7", 7), ("64", 64)] {
        let run = set_by(&rt, rt.alloc(), NARROW_AND_WIDE, words)?;
        assert!(rt; has_set(&run, workers, file.as_slice(), &cells));
    }
    Ok(())
}

#[test]
fn the_first_paragraph_with_a_fault_is_told(rt: HostRuntime) -> Result<(), Fail> {
    let at = ParAt {
        paragraph: 2,
        fault: ParFault::MissingChar { offset: 21 },
    };
    let run = set_by(&rt, rt.alloc(), TWO_FAULTS, "4")?;
    assert_eq!(rt; run.answer, Answer::Par { at });
    assert_eq!(rt; run.status, 1);
    assert!(rt; run.closed.is_none() && run.written.is_empty());
    Ok(())
}

/// Sets the long job in the ligature font by so many workers.
fn set_long<R: Threads + Sync>(rt: &R, alloc: Global, workers: &str) -> Result<Run, Fail> {
    let words = ["pdfmicro", "set", "j", "--workers", workers];
    let font = lig10(alloc)?;
    run_words(
        rt,
        alloc,
        &words,
        long_job(alloc)?.as_slice(),
        font.as_slice(),
        &SOUND,
    )
}

#[test]
fn two_expanded_fonts_have_at_most_eighty_instances(rt: HostRuntime) -> Result<(), Fail> {
    let one = set_long(&rt, rt.alloc(), "1")?;
    let owners = one.owners().len();
    assert!(rt; one.answer == Answer::Done && owners >= 2 && owners <= 80);
    for _ in 0..10 {
        let run = set_long(&rt, rt.alloc(), "8")?;
        let is_same = run.written.as_slice() == one.written.as_slice();
        assert!(rt; is_same && run.owners().len() == owners);
    }
    Ok(())
}

/// One instance was claimed, and each of two paragraphs set once, by another worker each.
fn saw_both(gate: &BuildGate) -> bool {
    gate.claims() == 1
        && (gate.of_paragraph(1), gate.of_paragraph(2)) == (1, 1)
        && (gate.of_worker(1), gate.of_worker(2)) == (1, 1)
}

#[test]
fn a_paragraph_is_set_while_the_owner_of_its_instance_is_held(rt: HostRuntime) -> Result<(), Fail> {
    let gate = BuildGate::new(rt.alloc(), 3, 3, TURNS)?;
    let run = set_gated(&rt, rt.alloc(), SHARING, &gate)?;
    assert_eq!(rt; (run.answer, run.owners().len()), (Answer::Done, 1));
    assert!(rt; gate.given_up() == 0 && saw_both(&gate));
    Ok(())
}

/// Each of four paragraphs was set once.
fn saw_four(gate: &DrawGate) -> bool {
    (gate.of_paragraph(1), gate.of_paragraph(2)) == (1, 1)
        && (gate.of_paragraph(3), gate.of_paragraph(4)) == (1, 1)
}

#[test]
fn a_worker_draws_three_paragraphs_while_another_is_held(rt: HostRuntime) -> Result<(), Fail> {
    let gate = DrawGate::new(rt.alloc(), 3, 5, 3, TURNS)?;
    let run = set_gated(&rt, rt.alloc(), FOUR_LINES, &gate)?;
    assert_eq!(rt; run.answer, Answer::Done);
    assert!(rt; gate.given_up() == 0 && saw_four(&gate));
    Ok(())
}
