//! How the glue of a line is set, and how far it shifts what is behind it (TeX: The Program,
//! sections 625, 656 to 660 and 664).
ghost use Rattle.std.specs.Prelude.{◌≡◌, ◌≢◌, ◌≤◌, ◌<◌, ◌^◌, pos, unsigned_abs};
ghost use Rattle.break_rule.specs.Kept.{IsWithin};
ghost use Rattle.hpack_two.specs.Glue.{set_of, stretched as stretched_of, shrunk as shrunk_of};
ghost use Rattle.hpack_two.specs.Glue.{given_by, shift_at};
ghost use Rattle.hpack_two.specs.Pens.{CanDivide, IsSet};
ghost use Rattle.hpack_two.specs.declared.glue.GlueSet.TheVariants.{Stretched};

use crate::quotients::{negated, part_of};
use break_rule::{Sums, where_order};
use micro_num::Glue;

/// How the glue of a line is set.
#[derive(Clone, Copy, Debug, PartialEq, Eq)]
pub enum GlueSet {
    /// No glue stretches or shrinks.
    Natural,
    /// Glue of an order makes up for what is lacking, in the share of `total` that it has.
    Stretched { order: u8, lacking: i64, total: i64 },
    /// All glue makes up for what is too much, in the share of `total` that it has.
    Shrunk { surplus: i64, total: i64 },
    /// All glue shrinks by what it can.
    ShrunkInFull,
}

impl GlueSet {
    /// How glue is set where a line lacks so much, or has too much where that is negative, and all
    /// of it adds up to `sums`.
    #[tactic(auto, unfolding(crate::specs::Glue::set_of))]
    pub fn of(lacking: i64, sums: &Sums) -> GlueSet
        requires lacking { unsigned_abs lacking ≤ 2 ^ 60 }
        requires sums { IsWithin 131076 sums.now }
        ensures exact { result ≡ set_of lacking sums.now }
        ensures sound { IsSet result }
    {
        if lacking > 0 {
            stretched(lacking, sums)
        } else if lacking < 0 {
            shrunk(negated(lacking), sums)
        } else {
            GlueSet::Natural
        }
    }

    /// What a glue counts for.
    pub fn given(&self, glue: Glue) -> i64
        ensures exact { result ≡ given_by self.now glue }
        ensures small { unsigned_abs result ≤ 2 ^ 31 }
    {
        match *self {
            GlueSet::Natural => 0,
            GlueSet::Stretched { order, .. } => where_order(glue, order),
            GlueSet::Shrunk { .. } => glue.shrink as i64,
            GlueSet::ShrunkInFull => glue.shrink as i64,
        }
    }

    /// How far glue shifts what is behind it, that counts for so much.
    #[tactic(auto, unfolding(crate::specs::Glue::shift_at))]
    pub fn shift(&self, given: i64) -> i128
        requires set { IsSet self.now }
        requires given { unsigned_abs given ≤ 2 ^ 60 }
        ensures exact { result ≡ shift_at self.now given }
        ensures small { unsigned_abs result ≤ 2 ^ 122 }
    {
        match *self {
            GlueSet::Natural => 0,
            GlueSet::Stretched { lacking, total, .. } => part_of(lacking, given, total),
            GlueSet::Shrunk { surplus, total } => -part_of(surplus, given, total),
            GlueSet::ShrunkInFull => -(given as i128),
        }
    }
}

/// How glue stretches: that of the greatest order of which there is any.
fn stretched(lacking: i64, sums: &Sums) -> GlueSet
    requires lacking { unsigned_abs lacking ≤ 2 ^ 60 }
    requires sums { IsWithin 131076 sums.now }
    ensures exact { result ≡ stretched_of lacking sums.now }
    ensures sound { IsSet result }
{
    if sums.filll != 0 {
        of_order(3, lacking, sums.filll)
    } else if sums.fill != 0 {
        of_order(2, lacking, sums.fill)
    } else if sums.fil != 0 {
        of_order(1, lacking, sums.fil)
    } else if sums.finite != 0 {
        of_order(0, lacking, sums.finite)
    } else {
        GlueSet::Natural
    }
}

/// Glue of an order stretches.
fn of_order(order: u8, lacking: i64, total: i64) -> GlueSet
    requires { CanDivide lacking total }
    ensures exact { result ≡ Stretched order lacking total }
    ensures sound { IsSet result }
{
    GlueSet::Stretched {
        order,
        lacking,
        total,
    }
}

/// How glue shrinks: by what it can where that isn't enough.
fn shrunk(surplus: i64, sums: &Sums) -> GlueSet
    requires surplus { unsigned_abs surplus ≤ 2 ^ 60 }
    requires sums { IsWithin 131076 sums.now }
    ensures exact { result ≡ shrunk_of surplus sums.now }
    ensures sound { IsSet result }
{
    let total = sums.shrink;
    if total == 0 {
        GlueSet::Natural
    } else if surplus <= total {
        GlueSet::Shrunk { surplus, total }
    } else {
        GlueSet::ShrunkInFull
    }
}
