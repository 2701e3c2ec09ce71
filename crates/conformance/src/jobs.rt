//! The cases of jobs: what a job says, printed item by item, or its first fault.
use crate::bytes::bytes_of;
use font_stock::Size;
use job_text::{FontDecl, Job, JobFault};
use liang_hyph::{Exception, Pattern};
use micro_num::{Glue, Par, Params, Part, PartAt, ShapeLine, Tables};
use std::alloc::{AllocError, Global};

/// The job that the bytes spell which `left` gives in hexadecimal, or its first fault.
pub fn answer(alloc: Global, left: &str) -> Result<Option<String>, AllocError> {
    let Some(bytes) = bytes_of(alloc, left)? else {
        return Ok(None);
    };
    if bytes.len() >= 1 << 32 {
        return Ok(None);
    }
    match job_text::read_job(alloc, &bytes) {
        Ok(job) => Ok(Some(job_text_of(alloc, &job)?)),
        Err(JobFault::At { offset, kind }) => {
            let number = kind.number();
            Ok(Some(format!(in alloc; "fault {number} {offset}")?))
        }
        Err(JobFault::NoMemory) => Err(AllocError),
    }
}

/// What a job says: fonts, tables, patterns, exceptions and paragraphs.
fn job_text_of(alloc: Global, job: &Job) -> Result<String, AllocError> {
    let mut text = String::new(alloc);
    for font in job.fonts.as_slice() {
        add_font(alloc, &mut text, font)?;
        text.push_str("; ")?;
    }
    add_tables(alloc, &mut text, &job.tables)?;
    for pattern in job.patterns.as_slice() {
        text.push_str("; ")?;
        add_pattern(alloc, &mut text, pattern)?;
    }
    for exception in job.exceptions.as_slice() {
        text.push_str("; ")?;
        add_exception(alloc, &mut text, exception)?;
    }
    for par in job.pars.as_slice() {
        text.push_str("; ")?;
        add_par(alloc, &mut text, par)?;
    }
    Ok(text)
}

fn add_font(alloc: Global, text: &mut String, font: &FontDecl) -> Result<(), AllocError> {
    text.push_str("font ")?;
    for byte in font.name.as_slice() {
        text.push(char::from(*byte))?;
    }
    match font.size {
        Size::Design => text.push_str(" design")?,
        Size::At { size } => text.push_str(format!(in alloc; " at/{size}")?.as_str())?,
        Size::Scaled { by } => text.push_str(format!(in alloc; " scaled/{by}")?.as_str())?,
    }
    match &font.expand {
        None => text.push_str(" expand none")?,
        Some(expand) => {
            let stretch = expand.stretch;
            let shrink = expand.shrink;
            let step = expand.step;
            text.push_str(format!(in alloc; " expand {stretch},{shrink},{step}")?.as_str())?;
        }
    }
    let code = font.codes.hyphen;
    let hyphen = if (0..256).contains(&code) { code } else { -1 };
    text.push_str(format!(in alloc; " hyphen {hyphen}")?.as_str())?;
    for (code, value) in font.codes.left.iter().enumerate() {
        if *value != 0 {
            text.push_str(format!(in alloc; " l{code}:{value}")?.as_str())?;
        }
    }
    for (code, value) in font.codes.right.iter().enumerate() {
        if *value != 0 {
            text.push_str(format!(in alloc; " r{code}:{value}")?.as_str())?;
        }
    }
    for (code, value) in font.codes.ef.iter().enumerate() {
        if *value != 1000 {
            text.push_str(format!(in alloc; " e{code}:{value}")?.as_str())?;
        }
    }
    Ok(())
}

// The entries of the tables that are not those of plain TeX.
fn add_tables(alloc: Global, text: &mut String, tables: &Tables) -> Result<(), AllocError> {
    text.push_str("sf")?;
    for (code, value) in tables.sfcode.iter().enumerate() {
        let plain = if (65..91).contains(&code) { 999 } else { 1000 };
        if *value != plain {
            text.push_str(format!(in alloc; " {code}:{value}")?.as_str())?;
        }
    }
    text.push_str(" lc")?;
    for (code, value) in tables.lccode.iter().enumerate() {
        let plain = match code {
            65..=90 => code + 32,
            97..=122 => code,
            _ => 0,
        };
        if usize::from(*value) != plain {
            text.push_str(format!(in alloc; " {code}:{value}")?.as_str())?;
        }
    }
    Ok(())
}

fn add_hex(alloc: Global, text: &mut String, codes: &[u8]) -> Result<(), AllocError> {
    for code in codes {
        text.push_str(format!(in alloc; "{code:02x}")?.as_str())?;
    }
    Ok(())
}

// The numbers, with commas between them.
fn add_list(alloc: Global, text: &mut String, numbers: &[u8]) -> Result<(), AllocError> {
    let mut first = true;
    for number in numbers {
        if !first {
            text.push_str(",")?;
        }
        first = false;
        text.push_str(format!(in alloc; "{number}")?.as_str())?;
    }
    Ok(())
}

fn add_pattern(alloc: Global, text: &mut String, pattern: &Pattern) -> Result<(), AllocError> {
    text.push_str("pattern ")?;
    if pattern.start {
        text.push_str(".")?;
    }
    add_hex(alloc, text, pattern.letters.as_slice())?;
    if pattern.end {
        text.push_str(".")?;
    }
    text.push_str(" ")?;
    add_list(alloc, text, pattern.values.as_slice())
}

fn add_exception(
    alloc: Global,
    text: &mut String,
    exception: &Exception,
) -> Result<(), AllocError> {
    text.push_str("exception ")?;
    add_hex(alloc, text, exception.letters.as_slice())?;
    text.push_str(" ")?;
    let places = exception.places.as_slice();
    if places.is_empty() {
        return text.push_str("-");
    }
    add_list(alloc, text, places)
}

fn add_par(alloc: Global, text: &mut String, par: &Par) -> Result<(), AllocError> {
    text.push_str(if par.indent {
        "paragraph indent"
    } else {
        "paragraph noindent"
    })?;
    add_params(alloc, text, &par.params)?;
    add_shape(alloc, text, par.shape.as_slice())?;
    text.push_str(":")?;
    let parts = par.parts.as_slice();
    if parts.is_empty() {
        text.push_str(" ")?;
    }
    for part in parts {
        text.push_str(" ")?;
        add_part(alloc, text, part)?;
    }
    Ok(())
}

// The parameters that are not those of plain TeX.
fn add_params(alloc: Global, text: &mut String, own: &Params) -> Result<(), AllocError> {
    let plain = Params::plain();
    let numbers = [
        ("pretolerance", own.pretolerance, plain.pretolerance),
        ("tolerance", own.tolerance, plain.tolerance),
        ("linepenalty", own.linepenalty, plain.linepenalty),
        ("hyphenpenalty", own.hyphenpenalty, plain.hyphenpenalty),
        (
            "exhyphenpenalty",
            own.exhyphenpenalty,
            plain.exhyphenpenalty,
        ),
        ("adjdemerits", own.adjdemerits, plain.adjdemerits),
        (
            "doublehyphendemerits",
            own.doublehyphendemerits,
            plain.doublehyphendemerits,
        ),
        (
            "finalhyphendemerits",
            own.finalhyphendemerits,
            plain.finalhyphendemerits,
        ),
        ("lefthyphenmin", own.lefthyphenmin, plain.lefthyphenmin),
        ("righthyphenmin", own.righthyphenmin, plain.righthyphenmin),
        (
            "pdfprotrudechars",
            own.pdfprotrudechars,
            plain.pdfprotrudechars,
        ),
        (
            "pdfadjustspacing",
            own.pdfadjustspacing,
            plain.pdfadjustspacing,
        ),
        ("hsize", own.hsize, plain.hsize),
        ("parindent", own.parindent, plain.parindent),
        ("lineskiplimit", own.lineskiplimit, plain.lineskiplimit),
        (
            "emergencystretch",
            own.emergencystretch,
            plain.emergencystretch,
        ),
    ];
    for (name, value, standard) in numbers {
        if value != standard {
            text.push_str(format!(in alloc; " {name}={value}")?.as_str())?;
        }
    }
    add_glue(
        alloc,
        text,
        "baselineskip",
        own.baselineskip,
        plain.baselineskip,
    )?;
    add_glue(alloc, text, "lineskip", own.lineskip, plain.lineskip)?;
    add_glue(
        alloc,
        text,
        "parfillskip",
        own.parfillskip,
        plain.parfillskip,
    )?;
    add_glue(alloc, text, "leftskip", own.leftskip, plain.leftskip)?;
    add_glue(alloc, text, "rightskip", own.rightskip, plain.rightskip)?;
    add_glue(alloc, text, "spaceskip", own.spaceskip, plain.spaceskip)?;
    add_glue(alloc, text, "xspaceskip", own.xspaceskip, plain.xspaceskip)?;
    let settings = [
        ("looseness", own.looseness, plain.looseness),
        ("hangindent", own.hangindent, plain.hangindent),
        ("hangafter", own.hangafter, plain.hangafter),
    ];
    for (name, value, standard) in settings {
        if value != standard {
            text.push_str(format!(in alloc; " {name}={value}")?.as_str())?;
        }
    }
    Ok(())
}

// The lines of a shape, if there is one.
fn add_shape(alloc: Global, text: &mut String, shape: &[ShapeLine]) -> Result<(), AllocError> {
    let mut before = " shape ";
    for line in shape {
        let indent = line.indent;
        let width = line.width;
        text.push_str(format!(in alloc; "{before}{indent},{width}")?.as_str())?;
        before = "/";
    }
    Ok(())
}

fn add_glue(
    alloc: Global,
    text: &mut String,
    name: &str,
    own: Glue,
    plain: Glue,
) -> Result<(), AllocError> {
    if own == plain {
        return Ok(());
    }
    text.push_str(format!(in alloc; " {name}=")?.as_str())?;
    add_sizes(alloc, text, own)
}

fn add_sizes(alloc: Global, text: &mut String, glue: Glue) -> Result<(), AllocError> {
    let width = glue.width;
    let stretch = glue.stretch;
    let order = glue.order;
    let shrink = glue.shrink;
    text.push_str(format!(in alloc; "{width},{stretch},{order},{shrink}")?.as_str())
}

fn add_part(alloc: Global, text: &mut String, at: &PartAt) -> Result<(), AllocError> {
    match &at.part {
        Part::Char { code } => text.push_str(format!(in alloc; "C{code}")?.as_str())?,
        Part::Space => text.push_str("S")?,
        Part::Normal => text.push_str("N")?,
        Part::Tie => text.push_str("T")?,
        Part::Kern { width } => text.push_str(format!(in alloc; "K{width}")?.as_str())?,
        Part::Skip { glue } => {
            text.push_str("G")?;
            add_sizes(alloc, text, *glue)?;
        }
        Part::Penalty { value } => text.push_str(format!(in alloc; "P{value}")?.as_str())?,
        Part::Hyphen => text.push_str("H")?,
        Part::Disc { lists } => {
            text.push_str("D")?;
            add_hex(alloc, text, lists.pre())?;
            text.push_str("|")?;
            add_hex(alloc, text, lists.post())?;
            text.push_str("|")?;
            add_hex(alloc, text, lists.whole())?;
        }
        Part::Font { font } => text.push_str(format!(in alloc; "F{font}")?.as_str())?,
    }
    let offset = at.offset;
    text.push_str(format!(in alloc; "@{offset}")?.as_str())
}
