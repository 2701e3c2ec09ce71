//! What a ligature word does: the eight operations that have a meaning (TFM description,
//! "lig_kern").

ghost use Rattle.std.specs.Prelude.{◌≡◌};
ghost use Rattle.lig_kern.specs.Rewriting.{operation_of};

/// What a ligature word does besides putting its character between two symbols.
#[derive(Clone, Copy, Debug, PartialEq, Eq)]
pub struct Operation {
    /// How many of the symbols that are left the cursor passes over, from 0 to 2.
    pub passes: u8,
    /// Whether the current symbol stays.
    pub keeps_current: bool,
    /// Whether the next symbol stays.
    pub keeps_next: bool,
}

impl Operation {
    /// The meaning of an op below 128. One that has none is read as 0.
    #[tactic(auto, unfolding(crate::specs::Rewriting::operation_of))]
    pub fn of(op: u8) -> Operation
        ensures { result ≡ operation_of op }
    {
        let (passes, keeps_current, keeps_next) = match op {
            1 => (0, false, true),
            2 => (0, true, false),
            3 => (0, true, true),
            5 => (1, false, true),
            6 => (1, true, false),
            7 => (1, true, true),
            11 => (2, true, true),
            _ => (0, false, false),
        };
        Operation {
            passes,
            keeps_current,
            keeps_next,
        }
    }
}
