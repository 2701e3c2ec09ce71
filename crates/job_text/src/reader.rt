//! A whole job: the tokens of its file are read one after another, as they are cut.
ghost use Rattle.std.specs.Prelude.{◌≡◌, ℕ, ◌<◌, ◌^◌, ◌⊎◌, List, length, IfOk};
ghost use Rattle.job_text.specs.Answers.{HasJob, HasFault};
ghost use Rattle.job_text.specs.Answers.{Said, said_of, said_by, IsJobOf, IsFaultAt, IsAnswer};
ghost use Rattle.job_text.specs.Answers.{GivesJob, GivesFault};
ghost use Rattle.job_text.specs.Fits.{JobFits};
ghost use Rattle.job_text.specs.Job.{state_of};
ghost use Rattle.job_reading.specs.declared.fault.JobFaultKind.{JobFaultKind};

use crate::job::Job;
use crate::state::State;
use items::Items;
use job_lex::first_fault;
use job_reading::{JobFault, Rest, Source};
use std::alloc::Global;

/// The job that the bytes of a file spell, or its first fault. The bytes are fewer than 2^32.
pub fn read_job(alloc: Global, bytes: &[u8]) -> Result<Job, JobFault>
    requires { length bytes.now < 2 ^ 32 }
    ensures answer { IsAnswer bytes.now result }
    // What the bytes say is found unless memory runs out.
    ensures only { (said : Said) → IsJobOf bytes.now said → GivesJob result said }
    // And so is a fault, wherever there is one.
    ensures fault { (place : ℕ) (kind : JobFaultKind) → IsFaultAt bytes.now place kind →
        GivesFault result place kind }
    // Every job keeps to the limits.
    ensures fits { IfOk result JobFits }
{
    read(alloc, bytes)
}

/// A file spells at most one job, or has one first fault, and not both.
pub fn one_reading()
    ensures job { (bytes : List ℕ) (a b : Said) → IsJobOf bytes a → IsJobOf bytes b → a ≡ b }
    ensures fault { (bytes : List ℕ) (place other : ℕ) (kind another : JobFaultKind) → IsFaultAt
        bytes place kind → IsFaultAt bytes other another → (place ≡ other) × (kind ≡ another) }
    ensures not_both { (bytes : List ℕ) (said : Said) (place : ℕ) (kind : JobFaultKind) → IsJobOf
        bytes said → IsFaultAt bytes place kind → ⊥ }
{}

/// Every file spells a job or has a fault.
pub fn job_or_fault(bytes: &[u8])
    requires { length bytes.now < 2 ^ 32 }
    ensures { HasJob bytes.now ⊎ HasFault bytes.now }
{
    let _ = first_fault(bytes);
}

/// What [`read_job`] reads, by its answer alone.
fn read(alloc: Global, bytes: &[u8]) -> Result<Job, JobFault>
    requires { length bytes.now < 2 ^ 32 }
    ensures { IsAnswer bytes.now result }
{
    let rest = Rest::new(bytes)?;
    let source = Source::new(bytes);
    let mut state = State::new(alloc);
    state.read(alloc, &source, rest)?;
    Ok(job(state))
}

/// What a job said, at its end.
fn job(state: State) -> Job
    ensures { said_of result ≡ said_by (state_of state) }
{
    let State {
        fonts,
        names: _names,
        tables,
        patterns,
        exceptions,
        pars,
        params: _params,
        shape: _shape,
        current: _current,
    } = state;
    Job {
        fonts: Items::from_vec(fonts),
        tables,
        patterns,
        exceptions,
        pars,
    }
}
