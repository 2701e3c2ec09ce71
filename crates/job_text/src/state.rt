//! What a job said so far, and what each token outside paragraphs does to it (TeX: The Program,
//! sections 1045 and 1210 to 1260).
//!
//! Between two steps each font has its word.
ghost use Rattle.job_reading.specs.Reading.{ChangesOrMemory};
ghost use Rattle.std.specs.Prelude.{◌≡◌, ◌<◌, ◌≤◌, ◌^◌, length, IfOk, OnOk};
ghost use Rattle.job_reading.specs.Lexemes.{ends_job};
ghost use Rattle.job_reading.specs.Repeats.{read_until};
ghost use Rattle.job_text.specs.Job.{AreCounted, state_of, start, one_paragraph, select};
ghost use Rattle.job_text.specs.Job.{declare_early, declare, word_step, is_part_symbol, job_step};

use crate::discretionary::is_character_symbol;
use crate::font::font;
use crate::font_decl::FontDecl;
use crate::font_words::{CodeTable, assign_code, expansion, hyphen_character};
use crate::names::Names;
use crate::paragraph::paragraph;
use crate::parameters::{assign_dimension, assign_glue, assign_integer, behind_paragraph};
use crate::patterns::{exceptions, patterns};
use crate::shape::shape;
use crate::tables::{lower_case, space_factor};
use items::Items;
use job_reading::{Declaration, JobFault, JobFaultKind, Lexeme, Rest, Source, Token, Word};
use liang_hyph::{Exception, Pattern};
use micro_num::{Par, Params, ShapeLine, Tables};
use std::alloc::Global;

/// The most paragraphs of a job.
const MOST_PARAGRAPHS: usize = 65535;

/// What a job said so far.
#[derive(Drop)]
pub(crate) struct State {
    pub fonts: Vec<FontDecl>,
    pub names: Names,
    pub tables: Tables,
    pub patterns: Items<Pattern>,
    pub exceptions: Items<Exception>,
    pub pars: Items<Par>,
    pub params: Params,
    /// The shape of the next paragraph, which is empty where it has none.
    pub shape: Items<ShapeLine>,
    /// The current font, None before one was selected.
    pub current: Option<u32>,
}

impl State {
    /// What holds before a job says anything.
    pub(crate) fn new(alloc: Global) -> State
        ensures value { state_of result ≡ start }
        ensures counts { AreCounted result }
    {
        State {
            fonts: Vec::new(alloc),
            names: Names::new(alloc),
            tables: Tables::plain(),
            patterns: Items::new(alloc),
            exceptions: Items::new(alloc),
            pars: Items::new(alloc),
            params: Params::plain(),
            shape: Items::new(alloc),
            current: None,
        }
    }

    /// Reads tokens up to the end of the job, and gives those from there on.
    pub(crate) fn read<'a>(
        &mut self,
        alloc: Global,
        source: &Source,
        rest: Rest<'a>,
    ) -> Result<Rest<'a>, JobFault>
        requires counts { AreCounted self.old }
        ensures { ChangesOrMemory (state_of self.new) result
            (read_until ends_job (job_step source.now) (state_of self.old)) rest.entry }
    {
        let mut more = rest;
        while let Some((token, tail)) = more.next() {
            if token.lexeme.ends_job() {
                return Ok(more);
            }
            more = self.step(alloc, source, token, tail)?;
        }
        Ok(more)
    }

    /// Reads what a token begins outside paragraphs.
    #[tactic(auto, unfolding(crate::specs::Job::job_step))]
    fn step<'a>(
        &mut self,
        alloc: Global,
        source: &Source,
        token: Token,
        tail: Rest<'a>,
    ) -> Result<Rest<'a>, JobFault>
        requires counts { AreCounted self.old }
        ensures value { ChangesOrMemory (state_of self.new) result
            (job_step source.now (state_of self.old) token) tail.entry }
        ensures counts { OnOk result (AreCounted self.new) }
    {
        match token.lexeme {
            Lexeme::Space | Lexeme::EmptyLine => Ok(tail),
            Lexeme::Close => Err(JobFault::from(token.fault(JobFaultKind::StrayBrace))),
            Lexeme::Letter(_) | Lexeme::Name => self.select(source, token, tail),
            Lexeme::Word(word) => self.word(alloc, source, token, word, tail),
            Lexeme::Symbol(code) => {
                if is_part_symbol(code) {
                    self.paragraph(alloc, source, token, Some(token), tail)
                } else {
                    Err(JobFault::from(token.fault(JobFaultKind::UnknownWord)))
                }
            }
            Lexeme::Char(_) | Lexeme::Tie | Lexeme::Open => {
                self.paragraph(alloc, source, token, Some(token), tail)
            }
        }
    }

    /// A font word selects its font.
    #[tactic(auto, unfolding(crate::specs::Job::select))]
    fn select<'a>(
        &mut self,
        source: &Source,
        token: Token,
        tail: Rest<'a>,
    ) -> Result<Rest<'a>, JobFault>
        requires counts { AreCounted self.old }
        ensures value { ChangesOrMemory (state_of self.new) result
            (select source.now (state_of self.old) token) tail.entry }
        ensures counts { OnOk result (AreCounted self.new) }
    {
        match self.names.find(source.name(token)) {
            Some(font) => {
                self.current = Some(font);
                Ok(tail)
            }
            None => Err(JobFault::from(token.fault(JobFaultKind::UnknownWord))),
        }
    }

    /// A control word outside paragraphs.
    #[tactic(auto, unfolding(crate::specs::Job::word_step))]
    fn word<'a>(
        &mut self,
        alloc: Global,
        source: &Source,
        token: Token,
        word: Word,
        tail: Rest<'a>,
    ) -> Result<Rest<'a>, JobFault>
        requires counts { AreCounted self.old }
        ensures value { ChangesOrMemory (state_of self.new) result
            (word_step source.now (state_of self.old) token word) tail.entry }
        ensures counts { OnOk result (AreCounted self.new) }
    {
        match word {
            Word::ParEnd | Word::Relax | Word::Bye | Word::End => Ok(tail),
            Word::Noindent => self.paragraph(alloc, source, token, None, tail),
            Word::Char | Word::Kern | Word::Hskip | Word::Penalty | Word::Discretionary => {
                self.paragraph(alloc, source, token, Some(token), tail)
            }
            Word::Parshape => {
                let (shape, behind) = shape(alloc, source, tail)?;
                self.shape = shape;
                Ok(behind)
            }
            Word::Declaration(declaration) => {
                self.declare(alloc, source, token, declaration, tail)
            }
            Word::Integer(parameter) => {
                Ok(assign_integer(&mut self.params, parameter, source, tail)?)
            }
            Word::Dimension(parameter) => {
                Ok(assign_dimension(&mut self.params, parameter, source, tail)?)
            }
            Word::Glue(parameter) => Ok(assign_glue(&mut self.params, parameter, source, tail)?),
        }
    }

    /// A declaration, which stands before the first paragraph.
    #[tactic(auto, unfolding(crate::specs::Job::declare))]
    fn declare<'a>(
        &mut self,
        alloc: Global,
        source: &Source,
        token: Token,
        declaration: Declaration,
        tail: Rest<'a>,
    ) -> Result<Rest<'a>, JobFault>
        requires counts { AreCounted self.old }
        ensures value { ChangesOrMemory (state_of self.new) result
            (declare source.now (state_of self.old) token.from declaration) tail.entry }
        ensures counts { OnOk result (AreCounted self.new) }
    {
        if self.pars.len() == 0 {
            self.declare_early(alloc, source, token, declaration, tail)
        } else {
            Err(JobFault::from(token.fault(JobFaultKind::LateDeclaration)))
        }
    }

    /// A declaration in its place.
    #[tactic(auto, unfolding(crate::specs::Job::declare_early))]
    fn declare_early<'a>(
        &mut self,
        alloc: Global,
        source: &Source,
        token: Token,
        declaration: Declaration,
        tail: Rest<'a>,
    ) -> Result<Rest<'a>, JobFault>
        requires counts { AreCounted self.old }
        ensures value { ChangesOrMemory (state_of self.new) result
            (declare_early source.now (state_of self.old) token.from declaration) tail.entry }
        ensures counts { OnOk result (AreCounted self.new) }
    {
        match declaration {
            Declaration::Font => font(alloc, source, &mut self.names, &mut self.fonts, token, tail),
            Declaration::Lpcode => Ok(assign_code(
                CodeTable::Left,
                source,
                &self.names,
                &mut self.fonts,
                tail,
            )?),
            Declaration::Rpcode => Ok(assign_code(
                CodeTable::Right,
                source,
                &self.names,
                &mut self.fonts,
                tail,
            )?),
            Declaration::Efcode => Ok(assign_code(
                CodeTable::Factor,
                source,
                &self.names,
                &mut self.fonts,
                tail,
            )?),
            Declaration::Pdffontexpand => {
                Ok(expansion(source, &self.names, &mut self.fonts, token, tail)?)
            }
            Declaration::Hyphenchar => {
                Ok(hyphen_character(source, &self.names, &mut self.fonts, tail)?)
            }
            Declaration::Sfcode => Ok(space_factor(&mut self.tables, source, tail)?),
            Declaration::Lccode => Ok(lower_case(&mut self.tables, source, tail)?),
            Declaration::Patterns => {
                patterns(alloc, source, &self.tables.lccode, &mut self.patterns, tail)
            }
            Declaration::Hyphenation => {
                exceptions(
                    alloc,
                    source,
                    &self.tables.lccode,
                    &mut self.exceptions,
                    tail,
                )
            }
        }
    }

    /// A paragraph of which the first token, which may be a part, stands at a place.
    #[tactic(auto, unfolding(crate::specs::Job::one_paragraph))]
    fn paragraph<'a>(
        &mut self,
        alloc: Global,
        source: &Source,
        token: Token,
        first: Option<Token>,
        tail: Rest<'a>,
    ) -> Result<Rest<'a>, JobFault>
        requires counts { AreCounted self.old }
        ensures value { ChangesOrMemory (state_of self.new) result
            (one_paragraph source.now (state_of self.old) token.from first) tail.entry }
        ensures counts { OnOk result (AreCounted self.new) }
    {
        if self.pars.len() >= MOST_PARAGRAPHS {
            return Err(JobFault::from(token.fault(JobFaultKind::TooManyParagraphs)));
        }
        let ((parts, current), behind) = paragraph(
            alloc,
            source,
            &self.names,
            self.current,
            token.from,
            first,
            tail,
        )?;
        let par = Par {
            params: self.params,
            indent: first.is_some(),
            shape: std::mem::replace(&mut self.shape, Items::new(alloc)),
            parts,
        };
        self.pars.push(par)?;
        behind_paragraph(&mut self.params);
        self.current = current;
        Ok(behind)
    }
}

/// Whether a backslash and this byte are a part of a paragraph.
fn is_part_symbol(code: u8) -> bool
    ensures { result ≡ is_part_symbol code }
{
    is_character_symbol(code) || code == b' ' || code == b'-'
}
