//! The draws of the generator: a linear congruential generator modulo 2^31, of whose state a draw
//! is the upper fifteen bits.
ghost use Rattle.std.specs.Prelude.{◌≡◌};
ghost use Rattle.micro_words.specs.Draws.{next_state, drawn};

/// The state after one more step.
#[tactic(auto, unfolding(crate::specs::Draws::next_state))]
pub(crate) fn step(state: u32) -> u32
    ensures { result ≡ next_state state }
{
    ((u64::from(state) * 1_103_515_245 + 12_345) % 2_147_483_648) as u32
}

/// What is drawn at a state.
#[tactic(auto, unfolding(crate::specs::Draws::drawn))]
pub(crate) fn draw(state: u32) -> u32
    ensures { result ≡ drawn state }
{
    state / 65_536
}
