//! Why a command has nothing to write.
ghost use Rattle.std.specs.Prelude.{◌≡◌, ◌⊎◌};
ghost use Rattle.micro_document.specs.Stopping.{stop_of, stop_at};
ghost use Rattle.micro_texts.specs.declared.answer.Answer.TheVariants.{NoMemory};

use items::Text;
use micro_texts::Answer;
use std::alloc::Global;

/// Why there is nothing to write.
#[derive(Drop)]
pub struct Stop {
    /// How the run ends.
    pub answer: Answer,
    /// The name of the file that couldn't be read, as the shelf was asked for it; else none.
    pub name: Option<Text>,
}

impl Stop {
    /// The stop of an answer that is about no file's reading.
    pub(crate) fn of(answer: Answer) -> Stop
        ensures { result ≡ stop_of answer }
    {
        Stop { answer, name: None }
    }

    /// The stop of a file that couldn't be read; or memory ran out.
    pub(crate) fn at(alloc: Global, name: &str, answer: Answer) -> Stop
        ensures { (result ≡ stop_at name.now answer) ⊎ (result ≡ stop_of NoMemory) }
    {
        match Text::from_str(alloc, name) {
            Ok(name) => Stop {
                answer,
                name: Some(name),
            },
            Err(_) => Stop::of(Answer::NoMemory),
        }
    }
}
