//! The shape of a paragraph: how far each of its lines is indented, and how wide it is (TeX: The
//! Program, section 1248).
ghost use Rattle.std.specs.Prelude.{◌≡◌, [], length};
ghost use Rattle.job_reading.specs.Reading.{ReadsOrMemory, ChangesOrMemory};
ghost use Rattle.job_reading.specs.Repeats.{times};
ghost use Rattle.job_text.specs.Shapes.{shape_line, shape};

use items::Items;
use job_reading::{JobFault, JobFaultKind, Rest, Source, dimension, number};
use micro_num::ShapeLine;
use std::alloc::Global;

/// The most lines of a shape.
const MOST_LINES: i32 = 1024;

/// `\parshape`: a count of lines, and so many pairs of an indent and a width.
#[tactic(auto, unfolding(crate::specs::Shapes::shape))]
pub(crate) fn shape<'a>(
    alloc: Global,
    source: &Source,
    rest: Rest<'a>,
) -> Result<(Items<ShapeLine>, Rest<'a>), JobFault>
    ensures { ReadsOrMemory (λ x. x) result (shape (length source.now)) rest.entry }
{
    let rest = rest.skip_equals();
    let (count, behind) = number(source, rest)?;
    let mut lines = Items::new(alloc);
    if count <= 0 {
        return Ok((lines, behind));
    }
    if count > MOST_LINES {
        return Err(JobFault::from(source.fault(JobFaultKind::NumberPast, rest)));
    }
    let behind = shape_lines(count as u32, source, &mut lines, behind)?;
    Ok((lines, behind))
}

/// So many lines of a shape.
fn shape_lines<'a>(
    count: u32,
    source: &Source,
    lines: &mut Items<ShapeLine>,
    rest: Rest<'a>,
) -> Result<Rest<'a>, JobFault>
    ensures { ChangesOrMemory lines.new result
        (times count (shape_line (length source.now)) lines.old)
        rest.entry }
{
    let mut more = rest;
    let mut count = count;
    while count > 0 {
        more = shape_line(source, lines, more)?;
        count -= 1;
    }
    Ok(more)
}

/// One more line of a shape: its indent and its width.
#[tactic(auto, unfolding(crate::specs::Shapes::shape_line))]
fn shape_line<'a>(
    source: &Source,
    lines: &mut Items<ShapeLine>,
    rest: Rest<'a>,
) -> Result<Rest<'a>, JobFault>
    ensures { ChangesOrMemory lines.new result (shape_line (length source.now) lines.old)
        rest.entry }
{
    let (indent, rest) = dimension(source, rest)?;
    let (width, rest) = dimension(source, rest)?;
    lines.push(ShapeLine { indent, width })?;
    Ok(rest)
}
