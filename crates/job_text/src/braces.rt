//! The braces of a group (TeX: The Program, section 403).
ghost use Rattle.job_reading.specs.Reading.{Reads, Changes};
ghost use Rattle.std.specs.Prelude.{◌≡◌, ◌≤◌, length, IfOk};
ghost use Rattle.job_text.specs.Braces.{open_brace, close_brace};

use job_reading::{Fault, JobFaultKind, Rest, Source};

/// The place of the brace that opens a group, behind a Space, and the tokens behind it.
#[tactic(auto, unfolding(crate::specs::Braces::open_brace))]
pub(crate) fn open_brace<'a>(source: &Source, rest: Rest<'a>) -> Result<(u32, Rest<'a>), Fault>
    ensures { Reads (λ x. x) result (open_brace (length source.now)) rest.entry }
{
    let rest = rest.skip_space();
    match rest.next() {
        Some((token, tail)) if token.lexeme.is_open() => Ok((token.from, tail)),
        _ => Err(source.fault(JobFaultKind::GroupExpected, rest)),
    }
}

/// The tokens behind the brace that closes a group, where it stands.
pub(crate) fn close_brace<'a>(brace: u32, rest: Rest<'a>) -> Result<Rest<'a>, Fault>
    ensures { Changes brace result (close_brace brace) rest.entry }
{
    match rest.next() {
        Some((_, tail)) => Ok(tail),
        None => Err(Fault {
            offset: brace,
            kind: JobFaultKind::UnclosedGroup,
        }),
    }
}
