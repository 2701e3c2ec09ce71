//! How a run ends.
ghost use Rattle.std.specs.Prelude.{◌≡◌};
ghost use Rattle.micro_texts.specs.Status.{status_of};

use instance_table::Closed;
use micro_texts::Answer;

/// What a run comes to: the status of its answer, the answer and, where `set` or `gen` was carried
/// out, the receipt of the table of instances. No other code than the table's makes a receipt: it
/// says which expanded instances of which fonts were built, each of them once, and by which worker.
#[derive(Drop)]
pub struct RunEnd {
    pub status: u8,
    pub answer: Answer,
    pub closed: Option<Closed>,
}

impl RunEnd {
    /// The end with an answer.
    pub(crate) fn with(answer: Answer, closed: Option<Closed>) -> RunEnd
        ensures answer { result.answer ≡ answer }
        ensures closed { result.closed ≡ closed }
        ensures status { result.status ≡ status_of result.answer }
    {
        RunEnd {
            status: answer.status(),
            answer,
            closed,
        }
    }
}
