//! The lines that take no memory, so that they can be written where there is none.
ghost use Rattle.std.specs.Prelude.{◌≡◌, option_map};
ghost use Rattle.micro_texts.specs.Messages.{fixed_of};

use crate::answer::Answer;

/// The line of an answer that is always the same, with its line feed.
pub fn fixed_line(answer: &Answer) -> Option<&'static str>
    ensures { option_map (λ line. line.now) result ≡ fixed_of answer.now }
{
    match answer {
        Answer::BadWords => Some("pdfmicro: bad words\n"),
        Answer::OutFault => Some("pdfmicro: output failed\n"),
        Answer::NoMemory => Some("pdfmicro: no memory\n"),
        Answer::Done => None,
        Answer::Job { .. } => None,
        Answer::Font { .. } => None,
        Answer::Par { .. } => None,
        Answer::DviTooLong { .. } => None,
        Answer::Absent { .. } => None,
        Answer::ReadFault { .. } => None,
        Answer::TalkFault => None,
        Answer::FileTooLong { .. } => None,
    }
}
