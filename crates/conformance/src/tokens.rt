//! The cases of the tokens of a job.
use crate::bytes::bytes_of;
use job_lex::{LexFault, Tok, TokKind};
use std::alloc::{AllocError, Global};

/// The tokens of the bytes that `left` spells in hexadecimal, or their first fault.
pub fn answer(alloc: Global, left: &str) -> Result<Option<String>, AllocError> {
    let Some(bytes) = bytes_of(alloc, left)? else {
        return Ok(None);
    };
    if bytes.len() >= 1 << 32 {
        return Ok(None);
    }
    match job_lex::tokens(alloc, &bytes) {
        Ok(toks) => Ok(Some(list(alloc, toks.as_slice())?)),
        Err(LexFault::At { offset, kind }) => {
            let number = kind.number();
            Ok(Some(format!(in alloc; "fault {number} {offset}")?))
        }
        Err(LexFault::NoMemory) => Err(AllocError),
    }
}

/// The tokens, each as its kind and the two places.
fn list(alloc: Global, toks: &[Tok]) -> Result<String, AllocError> {
    if toks.is_empty() {
        return String::from_str(alloc, "nothing");
    }
    let mut text = String::new(alloc);
    for tok in toks {
        if !text.is_empty() {
            text.push_str(", ")?;
        }
        let kind = name(tok.kind);
        let from = tok.from;
        let to = tok.to;
        let one = format!(in alloc; "{kind} {from}-{to}")?;
        text.push_str(one.as_str())?;
    }
    Ok(text)
}

fn name(kind: TokKind) -> &'static str {
    match kind {
        TokKind::Par => "Par",
        TokKind::Space => "Space",
        TokKind::Skip => "Skip",
        TokKind::Word => "Word",
        TokKind::Symbol => "Symbol",
        TokKind::Open => "Open",
        TokKind::Close => "Close",
        TokKind::Tie => "Tie",
        TokKind::Char => "Char",
    }
}
