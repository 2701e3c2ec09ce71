//! Asking how the lines of a paragraph fit, as the line breaker does: from each place at which a
//! line may begin, until one is overfull.
ghost use Rattle.std.specs.Prelude.{◌<◌, All, length};
ghost use Rattle.break_rule.specs.Made.{IsPlace};

use break_rule::{BreakRule, From, LineFit};

/// The badness of an overfull line.
const OVERFULL: u16 = 10001;

/// How many lines were asked about, and the sum of their badnesses.
#[derive(Clone, Copy, Debug, PartialEq, Eq)]
pub struct Asked {
    pub count: u64,
    pub badness: u64,
}

impl Asked {
    /// Both together.
    pub fn plus(self, other: Asked) -> Asked {
        Asked {
            count: self.count.saturating_add(other.count),
            badness: self.badness.saturating_add(other.badness),
        }
    }

    /// One line more.
    fn add(&mut self, fit: LineFit) {
        self.count = self.count.saturating_add(1);
        self.badness = self.badness.saturating_add(u64::from(fit.badness));
    }
}

/// Asks about the lines to each place of a list.
pub fn ask_all(rule: &BreakRule) -> Asked {
    let places = rule.legal();
    let mut asked = Asked {
        count: 0,
        badness: 0,
    };
    let mut first = 0;
    for end in 0..places.len() {
        first = ask_to(rule, places, first, end, &mut asked);
    }
    asked
}

/// Asks about the lines to one place, from those that come before it from a first one on; and
/// answers behind which of them the lines aren't overfull.
fn ask_to(rule: &BreakRule, places: &[u32], first: usize, end: usize, asked: &mut Asked) -> usize
    requires places { All (IsPlace rule.now) places.now }
    requires end { end < length places.now }
{
    let to = places[end];
    let mut open = first;
    for index in first..end {
        let from = From::After { at: places[index] };
        let fit = rule.line(from, to, 1);
        asked.add(fit);
        if fit.badness == OVERFULL {
            open = index + 1;
        }
    }
    open
}
