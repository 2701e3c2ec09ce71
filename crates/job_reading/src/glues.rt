//! Glues: a width, and what it stretches and shrinks by (TeX: The Program, sections 453 to 461).
//!
//! What it stretches by may be in an infinite unit, `fil`, `fill` or `filll`; what it shrinks by
//! may not.
ghost use Rattle.std.specs.Prelude.{◌≡◌, ◌≤◌, length};
ghost use Rattle.job_reading.specs.Reading.{Reads};
ghost use Rattle.job_reading.specs.Rest.{left};
ghost use Rattle.job_reading.specs.Lengths.{infinite, stretch, shrink, plus, minus, level, glue_of};
ghost use Rattle.job_reading.specs.Lengths.{glue};

use crate::dimensions::{dimension, in_unit, quantity, size_of};
use crate::fault::{Fault, JobFaultKind};
use crate::rest::Rest;
use crate::source::Source;
use micro_num::{Glue, Sp, Unit};

/// The order of a glue's stretch.
#[derive(Clone, Copy, Debug)]
pub(crate) enum Order {
    Finite,
    Fil,
    Fill,
    Filll,
}

/// A glue at the front of the tokens: three dimensions, of which the stretch may be infinite; or
/// their first fault, or a fault InfiniteShrink at the unit of an infinite shrink.
#[tactic(auto, unfolding(crate::specs::Lengths::glue))]
pub fn glue<'a>(source: &Source, rest: Rest<'a>) -> Result<(Glue, Rest<'a>), Fault>
    ensures { Reads (λ x. x) result (glue (length source.now)) rest.entry }
{
    let (width, rest) = dimension(source, rest)?;
    let ((stretch, order), rest) = plus(source, rest)?;
    let (shrink, rest) = minus(source, rest)?;
    Ok((glue_of(width, stretch, order, shrink), rest))
}

/// A glue of these sizes.
fn glue_of(width: Sp, stretch: Sp, order: Order, shrink: Sp) -> Glue
    ensures { result ≡ glue_of width stretch order shrink }
{
    Glue {
        width,
        stretch,
        order: level(order),
        shrink,
    }
}

/// The number of an order.
fn level(order: Order) -> u8
    ensures value { result ≡ level order }
    ensures small { result ≤ 3 }
{
    match order {
        Order::Finite => 0,
        Order::Fil => 1,
        Order::Fill => 2,
        Order::Filll => 3,
    }
}

/// The stretch, if `plus` comes next.
#[tactic(auto, unfolding(crate::specs::Lengths::plus))]
fn plus<'a>(source: &Source, rest: Rest<'a>) -> Result<((Sp, Order), Rest<'a>), Fault>
    ensures { Reads (λ x. x) result (plus (length source.now)) rest.entry }
{
    let rest = rest.skip_space();
    match rest.keyword(b"plus") {
        Some(amount) => stretch(source, amount),
        None => Ok(((0, Order::Finite), rest)),
    }
}

/// A dimension or an infinite amount.
#[tactic(auto, unfolding(crate::specs::Lengths::stretch))]
fn stretch<'a>(source: &Source, rest: Rest<'a>) -> Result<((Sp, Order), Rest<'a>), Fault>
    ensures { Reads (λ x. x) result (stretch (length source.now)) rest.entry }
{
    let first = source.place(rest);
    let (quantity, behind) = quantity(source, rest)?;
    let unit = behind.skip_space();
    match unit.keyword(b"fil") {
        Some(more) => {
            let size = size_of(first, quantity, Unit::Pt)?;
            let (order, behind) = infinite(more);
            Ok(((size, order), behind.skip_space()))
        }
        None => {
            let (size, behind) = in_unit(source, first, quantity, unit)?;
            Ok(((size, Order::Finite), behind))
        }
    }
}

/// The order of an infinite amount, by the letters behind its `fil`.
fn infinite(rest: Rest) -> (Order, Rest)
    ensures value { (result.0, left result.1) ≡ infinite (left rest.entry) }
    ensures within { length (left result.1) ≤ length (left rest.entry) }
{
    match rest.keyword(b"l") {
        None => (Order::Fil, rest),
        Some(more) => match more.keyword(b"l") {
            None => (Order::Fill, more),
            Some(behind) => (Order::Filll, behind),
        },
    }
}

/// The shrink, if `minus` comes next.
#[tactic(auto, unfolding(crate::specs::Lengths::minus))]
fn minus<'a>(source: &Source, rest: Rest<'a>) -> Result<(Sp, Rest<'a>), Fault>
    ensures { Reads (λ x. x) result (minus (length source.now)) rest.entry }
{
    let rest = rest.skip_space();
    match rest.keyword(b"minus") {
        Some(amount) => shrink(source, amount),
        None => Ok((0, rest)),
    }
}

/// A dimension, which may not be infinite.
#[tactic(auto, unfolding(crate::specs::Lengths::shrink))]
fn shrink<'a>(source: &Source, rest: Rest<'a>) -> Result<(Sp, Rest<'a>), Fault>
    ensures { Reads (λ x. x) result (shrink (length source.now)) rest.entry }
{
    let (quantity, behind) = quantity(source, rest)?;
    let unit = behind.skip_space();
    match unit.keyword(b"fil") {
        Some(_) => Err(source.fault(JobFaultKind::InfiniteShrink, unit)),
        None => in_unit(source, source.place(rest), quantity, unit),
    }
}
