//! Draws that a seed determines, by a linear congruence.
/// A row of draws.
#[derive(Drop)]
pub struct Draws {
    state: u32,
}

impl Draws {
    ghost use Rattle.std.specs.Prelude.{◌<◌};

    pub fn from_seed(seed: u32) -> Draws {
        Draws { state: seed }
    }

    /// The next draw below a count.
    pub fn below(&mut self, count: u32) -> u32
        requires { 0 < count }
        ensures { result < count }
    {
        self.state = self.state.wrapping_mul(1_103_515_245).wrapping_add(12_345);
        (self.state >> 16) % count
    }
}
