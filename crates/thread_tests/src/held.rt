//! Workers that are held while others get on: what they set is set beside one another. Stand-ins
//! that don't set so meet the limit of a gate, and would fail by it.
ghost use Rattle.std.specs.Prelude.{◌≤◌};

use crate::wrong::{set_fixed_shares, set_pages_first, set_serially};
use crate::{BuildGate, DrawGate, set_document};
use outside_io::Gate;
use std::alloc::Global;
use std::test::*;
use std::thread::Threads;
use test_fonts::tiny10;
use test_jobs::{FOUR_LINES, SHARING, read_document};

/// How many turns a worker is held at most.
const TURNS: u32 = 200000000;

/// How many where the limit is to be met.
const FEW_TURNS: u32 = 100000;

/// How many pages and owners a job in the tiny font has, set by so many workers past a gate.
fn set_past<R: Threads + Sync, G: Gate + Sync>(
    rt: &R,
    alloc: Global,
    job: &[u8],
    workers: u32,
    gate: &G,
) -> anyhow::Result<(usize, usize)>
    requires some { 1 ≤ workers }
    requires few { workers ≤ 64 }
{
    let document = read_document(alloc, job, &tiny10(alloc)?)?;
    let set = set_document(rt, alloc, &document, workers, gate)?;
    Ok((set.pages.len(), set.closed.owners().len()))
}

/// One instance was claimed, and each of two paragraphs set once.
fn saw_two(gate: &BuildGate) -> bool {
    gate.claims() == 1 && gate.of_paragraph(1) == 1 && gate.of_paragraph(2) == 1
}

/// Each of two workers set one paragraph.
fn saw_both(gate: &BuildGate) -> bool {
    gate.of_worker(1) == 1 && gate.of_worker(2) == 1
}

/// Each of four paragraphs was set once.
fn saw_four(gate: &DrawGate) -> bool {
    gate.of_paragraph(1) == 1
        && gate.of_paragraph(2) == 1
        && gate.of_paragraph(3) == 1
        && gate.of_paragraph(4) == 1
}

#[test]
fn a_paragraph_is_set_while_the_owner_of_its_instance_is_held(rt: HostRuntime) -> Result<(), Fail> {
    let gate = BuildGate::new(rt.alloc(), 3, 3, TURNS)?;
    assert_eq!(rt; set_past(&rt, rt.alloc(), SHARING, 2, &gate)?, (2, 1));
    assert!(rt; gate.given_up() == 0 && saw_two(&gate) && saw_both(&gate));
    Ok(())
}

#[test]
fn a_worker_draws_three_paragraphs_while_another_is_held(rt: HostRuntime) -> Result<(), Fail> {
    let gate = DrawGate::new(rt.alloc(), 3, 5, 3, TURNS)?;
    assert_eq!(rt; set_past(&rt, rt.alloc(), FOUR_LINES, 2, &gate)?, (4, 0));
    assert!(rt; gate.given_up() == 0 && saw_four(&gate));
    Ok(())
}

#[test]
fn one_worker_meets_the_limit_of_a_claim(rt: HostRuntime) -> Result<(), Fail> {
    let gate = BuildGate::new(rt.alloc(), 3, 3, FEW_TURNS)?;
    assert_eq!(rt; set_past(&rt, rt.alloc(), SHARING, 1, &gate)?, (2, 1));
    assert_eq!(rt; gate.given_up(), 1);
    Ok(())
}

#[test]
fn one_worker_meets_the_limit_of_a_draw(rt: HostRuntime) -> Result<(), Fail> {
    let gate = DrawGate::new(rt.alloc(), 3, 5, 3, FEW_TURNS)?;
    assert_eq!(rt; set_past(&rt, rt.alloc(), FOUR_LINES, 1, &gate)?, (4, 0));
    assert_eq!(rt; gate.given_up(), 1);
    Ok(())
}

#[test]
fn workers_one_after_another_meet_the_limit_of_a_claim(rt: HostRuntime) -> Result<(), Fail> {
    let alloc = rt.alloc();
    let document = read_document(alloc, SHARING, &tiny10(alloc)?)?;
    let gate = BuildGate::new(alloc, 3, 3, FEW_TURNS)?;
    let set = set_serially(&rt, alloc, &document.job, &document.stock, 2, &gate)?;
    assert!(rt; set == 2 && gate.given_up() != 0 && saw_two(&gate));
    Ok(())
}

#[test]
fn workers_one_after_another_meet_the_limit_of_a_draw(rt: HostRuntime) -> Result<(), Fail> {
    let alloc = rt.alloc();
    let document = read_document(alloc, FOUR_LINES, &tiny10(alloc)?)?;
    let gate = DrawGate::new(alloc, 3, 5, 3, FEW_TURNS)?;
    let set = set_serially(&rt, alloc, &document.job, &document.stock, 2, &gate)?;
    assert!(rt; set == 4 && gate.given_up() != 0 && saw_four(&gate));
    Ok(())
}

#[test]
fn workers_that_claim_after_their_pages_meet_the_limit(rt: HostRuntime) -> Result<(), Fail> {
    let alloc = rt.alloc();
    let document = read_document(alloc, SHARING, &tiny10(alloc)?)?;
    let gate = BuildGate::new(alloc, 3, 3, FEW_TURNS)?;
    let set = set_pages_first(&rt, alloc, &document.job, &document.stock, 2, &gate)?;
    assert!(rt; set == 2 && gate.given_up() != 0 && saw_two(&gate) && saw_both(&gate));
    Ok(())
}

#[test]
fn workers_with_fixed_shares_meet_the_limit(rt: HostRuntime) -> Result<(), Fail> {
    let alloc = rt.alloc();
    let document = read_document(alloc, FOUR_LINES, &tiny10(alloc)?)?;
    let gate = DrawGate::new(alloc, 3, 5, 3, FEW_TURNS)?;
    let set = set_fixed_shares(&rt, alloc, &document.job, &document.stock, 2, &gate)?;
    assert!(rt; set == 4 && gate.given_up() != 0 && saw_four(&gate));
    Ok(())
}
