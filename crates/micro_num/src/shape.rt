//! How wide each line of a paragraph is and where it begins: by the paragraph's shape, or else by
//! its hanging indentation. From one line on all lines are alike, and those before it differ; so
//! lines fall into groups, of which the last is open-ended (TeX: The Program, sections 847 to 850).
//!
//! Each call takes a constant time.
ghost use Rattle.std.specs.Prelude.{◌≡◌, ◌-◌, ◌<◌, ◌≤◌, ◌^◌, length, unsigned_abs};
ghost use Rattle.micro_num.specs.Shape.{hangs as does_hang, hung_line as line_hung, line_at};
ghost use Rattle.micro_num.specs.Shape.{last_special, open_group, group_of};

use crate::{Params, Sp};

/// One line of a paragraph's shape: where it begins and how wide it is, in scaled points.
#[derive(Clone, Copy, Debug, PartialEq, Eq)]
pub struct ShapeLine {
    pub indent: Sp,
    pub width: Sp,
}

/// The indent and the width of a line, counted from 1. A line past the end of the shape is like the
/// last of it. Without a shape lines are as wide as `hsize`, or narrower by the hanging
/// indentation, which indents them where it is above 0.
#[tactic(auto, unfolding(crate::specs::Shape::line_at))]
pub fn shape_line(params: &Params, shape: &[ShapeLine], line: u32) -> ShapeLine
    requires line { 1 ≤ line }
    requires hsize { unsigned_abs params.now.hsize < 2 ^ 30 }
    requires hangindent { unsigned_abs params.now.hangindent < 2 ^ 30 }
    ensures { result ≡ line_at params.now shape.now line }
{
    if shape.is_empty() {
        hung_line(params, line)
    } else {
        let place = (line as usize).min(shape.len()) - 1;
        shape[place]
    }
}

/// The last line that may differ from those after it, 0 where no line does.
#[tactic(auto, unfolding(crate::specs::Shape::last_special))]
pub fn last_special_line(params: &Params, shape: &[ShapeLine]) -> u32
    requires { length shape.now < 2 ^ 32 }
    ensures exact { result ≡ last_special params.now shape.now }
    ensures room { result < 2 ^ 32 - 1 }
{
    if !shape.is_empty() {
        (shape.len() - 1) as u32
    } else if params.hangindent == 0 {
        0
    } else {
        params.hangafter.unsigned_abs()
    }
}

/// The group of all lines past the last special one, None where a looseness other than 0 asks for
/// each line by its number.
#[tactic(auto, unfolding(crate::specs::Shape::open_group))]
pub fn open_ended_group(params: &Params, shape: &[ShapeLine]) -> Option<u32>
    requires { length shape.now < 2 ^ 32 }
    ensures { result ≡ open_group params.now shape.now }
{
    if params.looseness == 0 {
        Some(last_special_line(params, shape) + 1)
    } else {
        None
    }
}

/// The group of a line, counted from 1: its number, but at most that of the open-ended group.
#[tactic(auto, unfolding(crate::specs::Shape::group_of))]
pub fn line_group(params: &Params, shape: &[ShapeLine], line: u32) -> u32
    requires { length shape.now < 2 ^ 32 }
    ensures { result ≡ group_of params.now shape.now line }
{
    match open_ended_group(params, shape) {
        Some(last) => line.min(last),
        None => line,
    }
}

/// A line of a paragraph without a shape.
#[tactic(auto, unfolding(crate::specs::Shape::hung_line))]
fn hung_line(params: &Params, line: u32) -> ShapeLine
    requires hsize { unsigned_abs params.now.hsize < 2 ^ 30 }
    requires hangindent { unsigned_abs params.now.hangindent < 2 ^ 30 }
    ensures { result ≡ line_hung params.now line }
{
    if hangs(params, line) {
        ShapeLine {
            indent: params.hangindent.max(0),
            width: params.hsize - params.hangindent.abs(),
        }
    } else {
        ShapeLine {
            indent: 0,
            width: params.hsize,
        }
    }
}

/// Whether the hanging indentation counts for a line: up to line `-hangafter` where `hangafter` is
/// negative, else past line `hangafter`.
fn hangs(params: &Params, line: u32) -> bool
    ensures { result ≡ does_hang params.now line }
{
    let count = params.hangafter.unsigned_abs();
    if params.hangafter < 0 {
        line <= count
    } else {
        line > count
    }
}
