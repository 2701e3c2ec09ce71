//! The sweep over the legal places of a pass.
ghost use Rattle.std.specs.Prelude.{◌≡◌, ◌+◌, ◌<◌, OnOk, IfOk};
ghost use Rattle.line_break.specs.Best.{end_of};
ghost use Rattle.line_break.specs.Pass.{Pass};
ghost use Rattle.line_break.specs.Sweep.{active};
ghost use Rattle.break_sweep.specs.Made.{AreActive};

use crate::lines::Lines;
use crate::made::Made;
use crate::making::{join, make_nodes};
use crate::order::first_group;
use crate::trying::{Stop, try_nodes};
use line_break::Node;
use micro_num::NoMemory;
use std::alloc::Global;
use std::mem;

/// The arrays of a sweep: all nodes that were made, the indices of those that are active, and room
/// for those that live on and for the lines recorded at a place. Room for either is taken before
/// the nodes are tried, so that trying one takes none.
#[derive(Drop)]
pub(crate) struct Arrays {
    pub nodes: Vec<Made>,
    pub active: Vec<u32>,
    pub living: Vec<u32>,
    pub best: Vec<Made>,
}

impl Arrays {
    /// The start, which is a break after a decent line and names itself as the node before.
    pub(crate) fn start(alloc: Global, ended: Option<u32>) -> Result<Arrays, NoMemory>
        ensures { IfOk result (λ a. (q : Pass) → q.open_ended ≡ ended
            → AreActive q 0 a.nodes.items a.active.items) }
    {
        let node = Node {
            place: 0,
            group: first_group(ended),
            class: 2,
        };
        let mut nodes = Vec::new(alloc);
        nodes.push(Made {
            node,
            total: 0,
            before: 0,
        })?;
        let mut active = Vec::new(alloc);
        active.push(0)?;
        Ok(Arrays {
            nodes,
            active,
            living: Vec::new(alloc),
            best: Vec::new(alloc),
        })
    }

    /// Goes on from a place to the next one.
    pub(crate) fn after_place<L: Lines>(&mut self, lines: &L, place: u32) -> Result<(), NoMemory>
        requires within { place < end_of (L.pass lines.now) }
        requires active { AreActive (L.pass lines.now) place self.old.nodes.items
            self.old.active.items }
        ensures { OnOk result (AreActive (L.pass lines.now) (place + 1) self.new.nodes.items
            self.new.active.items) }
    {
        let to = place + 1;
        let forced = lines.forces(to);
        let stop = Stop { place: to, forced };
        let count = self.active.len();
        self.living.clear();
        self.living.reserve(count)?;
        self.best.clear();
        self.best.reserve(count)?;
        let old = self.nodes.as_slice();
        try_nodes(
            lines,
            stop,
            old,
            self.active.as_slice(),
            &mut self.living,
            &mut self.best,
        )?;
        mem::swap(&mut self.active, &mut self.living);
        let first = self.nodes.len();
        make_nodes(lines.slack(), self.best.as_slice(), &mut self.nodes)?;
        join(
            lines.open_ended(),
            self.nodes.as_slice(),
            first,
            &mut self.active,
        )?;
        Ok(())
    }
}
