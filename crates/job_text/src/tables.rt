//! The tables of space factors and of lower-case letters (TeX: The Program, section 1232).
ghost use Rattle.job_reading.specs.Reading.{Changes};
ghost use Rattle.std.specs.Prelude.{◌≡◌, ◌≤◌, length, map, IfOk};
ghost use Rattle.job_text.specs.Assignments.{space_factor, lower_case};

use job_reading::{Fault, Rest, Source, natural};
use micro_num::Tables;

/// `\sfcode`: a code and its space factor.
#[tactic(auto, unfolding(crate::specs::Assignments::space_factor))]
pub(crate) fn space_factor<'a>(
    tables: &mut Tables,
    source: &Source,
    rest: Rest<'a>,
) -> Result<Rest<'a>, Fault>
    ensures { Changes tables.new result (space_factor (length source.now) tables.old) rest.entry }
{
    let (code, rest) = natural(0, 255, source, rest)?;
    let (factor, rest) = natural(0, 32767, source, rest.skip_equals())?;
    tables.sfcode[code as usize] = factor as u16;
    Ok(rest)
}

/// `\lccode`: a code and the code of its lower-case letter.
#[tactic(auto, unfolding(crate::specs::Assignments::lower_case))]
pub(crate) fn lower_case<'a>(
    tables: &mut Tables,
    source: &Source,
    rest: Rest<'a>,
) -> Result<Rest<'a>, Fault>
    ensures { Changes tables.new result (lower_case (length source.now) tables.old) rest.entry }
{
    let (code, rest) = natural(0, 255, source, rest)?;
    let (lower, rest) = natural(0, 255, source, rest.skip_equals())?;
    tables.lccode[code as usize] = lower as u8;
    Ok(rest)
}
