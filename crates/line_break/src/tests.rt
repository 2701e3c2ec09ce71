//! The program that lists ways, run on passes worked out by hand.

use crate::{Line, Table};
use items::Items;
use std::alloc::{AllocError, Global};

/// A line of the first group.
fn line(from: u32, to: u32, badness: u16, class: u8, demerits: i64) -> Line {
    Line {
        from,
        group: 1,
        to,
        badness,
        class,
        demerits,
    }
}

/// A final pass over three places, the last forced, with tolerance 200.
fn pass(alloc: Global, lines: &[Line], adjdemerits: i32) -> Result<Table, AllocError> {
    Ok(Table {
        legal: Items::from_slice(alloc, &[1, 2, 3])?,
        forced: Items::from_slice(alloc, &[3])?,
        lines: Items::from_slice(alloc, lines)?,
        adjdemerits,
        threshold: 200,
        last: true,
        open_ended: Some(1),
    })
}

#[test]
fn the_best_way_has_its_nodes_and_total(rt: HostRuntime) {
    let apart = line(1, 2, 10000, 0, 9);
    let cases = [
        // Of two ways with one total the one with the later break.
        (
            [
                line(0, 1, 0, 2, 100),
                line(0, 2, 0, 2, 100),
                apart,
                line(1, 3, 0, 2, 100),
                line(2, 3, 0, 2, 100),
            ],
            (0, 2, 2, 200),
        ),
        // No line to the end is good enough, and the later node is rescued.
        (
            [
                line(0, 1, 1, 2, 1),
                line(0, 2, 2, 2, 4),
                apart,
                line(1, 3, 300, 2, 9),
                line(2, 3, 400, 2, 16),
            ],
            (0, 2, 2, 4),
        ),
        // adjdemerits count where classes differ by more than 1.
        (
            [
                line(0, 1, 0, 0, 1),
                line(0, 2, 0, 2, 3),
                apart,
                line(1, 3, 0, 2, 1),
                line(2, 3, 0, 2, 1),
            ],
            (50, 2, 2, 4),
        ),
    ];
    for (lines, (adjdemerits, place, class, total)) in cases {
        let table = pass(rt.alloc(), &lines, adjdemerits).expect(&rt, "memory");
        assert!(rt; table.is_small());
        let best = table
            .best(rt.alloc())
            .expect(&rt, "memory")
            .expect(&rt, "a way");
        assert_eq!(rt; best.last.place, 3);
        let node = best.earlier.as_slice().first().expect(&rt, "a node before");
        assert_eq!(rt; node.place, place);
        assert_eq!(rt; node.class, class);
        assert_eq!(rt; best.total, total);
    }
}
