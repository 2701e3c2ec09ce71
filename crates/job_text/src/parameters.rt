//! The parameters of a paragraph, and their assignment outside paragraphs (TeX: The Program,
//! sections 1228 and 1070).
ghost use Rattle.job_reading.specs.Reading.{Changes};
ghost use Rattle.std.specs.Prelude.{◌≡◌, ◌≤◌, length, IfOk};
ghost use Rattle.job_text.specs.Assignments.{behind_paragraph};
ghost use Rattle.job_text.specs.Assignments.{with_integer, with_dimension, with_glue};
ghost use Rattle.job_text.specs.Assignments.{assign_integer, assign_dimension, assign_glue};

use job_reading::{
    DimensionParameter, Fault, GlueParameter, IntegerParameter, Rest, Source, dimension, glue,
    number,
};
use micro_num::{Glue, Params, Sp};

/// Assigns a whole number to a parameter.
#[tactic(auto, unfolding(crate::specs::Assignments::assign_integer))]
pub(crate) fn assign_integer<'a>(
    params: &mut Params,
    parameter: IntegerParameter,
    source: &Source,
    rest: Rest<'a>,
) -> Result<Rest<'a>, Fault>
    ensures { Changes params.new result (assign_integer (length source.now) params.old parameter)
        rest.entry }
{
    let (value, rest) = number(source, rest.skip_equals())?;
    set_integer(params, parameter, value);
    Ok(rest)
}

fn set_integer(params: &mut Params, parameter: IntegerParameter, value: i32)
    ensures { params.new ≡ with_integer parameter value params.old }
{
    match parameter {
        IntegerParameter::Pretolerance => params.pretolerance = value,
        IntegerParameter::Tolerance => params.tolerance = value,
        IntegerParameter::Linepenalty => params.linepenalty = value,
        IntegerParameter::Hyphenpenalty => params.hyphenpenalty = value,
        IntegerParameter::Exhyphenpenalty => params.exhyphenpenalty = value,
        IntegerParameter::Adjdemerits => params.adjdemerits = value,
        IntegerParameter::Doublehyphendemerits => params.doublehyphendemerits = value,
        IntegerParameter::Finalhyphendemerits => params.finalhyphendemerits = value,
        IntegerParameter::Lefthyphenmin => params.lefthyphenmin = value,
        IntegerParameter::Righthyphenmin => params.righthyphenmin = value,
        IntegerParameter::Pdfprotrudechars => params.pdfprotrudechars = value,
        IntegerParameter::Pdfadjustspacing => params.pdfadjustspacing = value,
        IntegerParameter::Looseness => params.looseness = value,
        IntegerParameter::Hangafter => params.hangafter = value,
    }
}

/// Assigns a length to a parameter.
#[tactic(auto, unfolding(crate::specs::Assignments::assign_dimension))]
pub(crate) fn assign_dimension<'a>(
    params: &mut Params,
    parameter: DimensionParameter,
    source: &Source,
    rest: Rest<'a>,
) -> Result<Rest<'a>, Fault>
    ensures { Changes params.new result
        (assign_dimension (length source.now) params.old parameter) rest.entry }
{
    let (value, rest) = dimension(source, rest.skip_equals())?;
    set_dimension(params, parameter, value);
    Ok(rest)
}

fn set_dimension(params: &mut Params, parameter: DimensionParameter, value: Sp)
    ensures { params.new ≡ with_dimension parameter value params.old }
{
    match parameter {
        DimensionParameter::Hsize => params.hsize = value,
        DimensionParameter::Parindent => params.parindent = value,
        DimensionParameter::Lineskiplimit => params.lineskiplimit = value,
        DimensionParameter::Emergencystretch => params.emergencystretch = value,
        DimensionParameter::Hangindent => params.hangindent = value,
    }
}

/// Assigns a glue to a parameter.
#[tactic(auto, unfolding(crate::specs::Assignments::assign_glue))]
pub(crate) fn assign_glue<'a>(
    params: &mut Params,
    parameter: GlueParameter,
    source: &Source,
    rest: Rest<'a>,
) -> Result<Rest<'a>, Fault>
    ensures { Changes params.new result (assign_glue (length source.now) params.old parameter)
        rest.entry }
{
    let (value, rest) = glue(source, rest.skip_equals())?;
    set_glue(params, parameter, value);
    Ok(rest)
}

fn set_glue(params: &mut Params, parameter: GlueParameter, value: Glue)
    ensures { params.new ≡ with_glue parameter value params.old }
{
    match parameter {
        GlueParameter::Baselineskip => params.baselineskip = value,
        GlueParameter::Lineskip => params.lineskip = value,
        GlueParameter::Parfillskip => params.parfillskip = value,
        GlueParameter::Leftskip => params.leftskip = value,
        GlueParameter::Rightskip => params.rightskip = value,
        GlueParameter::Spaceskip => params.spaceskip = value,
        GlueParameter::Xspaceskip => params.xspaceskip = value,
    }
}

/// What holds behind a paragraph: the parameters that hold for one paragraph alone are at their
/// defaults.
pub(crate) fn behind_paragraph(params: &mut Params)
    ensures { params.new ≡ behind_paragraph params.old }
{
    params.looseness = 0;
    params.hangindent = 0;
    params.hangafter = 1;
}
