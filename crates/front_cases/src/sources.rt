//! Cases of sources: their tokens, their trees, and the values of string literals.

use crate::escapes::{LONGEST, escaped};
use crate::no_answer::NoAnswer;
use go_lexer::{SourceTokens, Token, lex};
use go_syntax::{SourceFile, parse};
use std::alloc::{AllocError, Global};
use string_literals::unquoted;

/// What is asked of a source.
#[derive(Clone, Copy, PartialEq, Eq)]
pub enum Wanted {
    Tokens,
    Counts,
    Tree,
}

/// The answer to a case of a source: what is wanted, or the first fault.
pub fn answer(alloc: Global, wanted: Wanted, src: &[u8]) -> Result<String, NoAnswer> {
    if src.len() > LONGEST {
        return Err(NoAnswer::NoCase);
    }
    let answer = match lex(alloc, src) {
        Ok(found) if wanted == Wanted::Tokens => listed(alloc, found.tokens())?,
        Ok(found) => parsed(alloc, &found, wanted == Wanted::Tree)?,
        Err(fault) => format!(in alloc; "{fault:?}")?,
    };
    Ok(answer)
}

/// Tokens with their spans.
fn listed(alloc: Global, found: &[Token]) -> Result<String, AllocError> {
    let mut text = String::new(alloc);
    for token in found {
        let comma = if text.is_empty() { "" } else { ", " };
        let one = format!(in alloc; "{comma}{:?} {}..{}", token.kind, token.start, token.end)?;
        text.push_str(one.as_str())?;
    }
    if text.is_empty() {
        text.push_str("no tokens")?;
    }
    Ok(text)
}

/// The tree of a source or the numbers of its imports and declarations, or its first fault.
fn parsed(alloc: Global, source: &SourceTokens<'_>, whole: bool) -> Result<String, AllocError> {
    match parse(alloc, source) {
        Ok(file) if whole => format!(in alloc; "{file:?}"),
        Ok(file) => counted(alloc, &file),
        Err(fault) => format!(in alloc; "{fault:?}"),
    }
}

fn counted(alloc: Global, file: &SourceFile) -> Result<String, AllocError> {
    let (imports, tops) = (file.imports.len(), file.tops.len());
    format!(in alloc; "imports {imports}, declarations {tops}")
}

/// What a string literal stands for.
pub fn value(alloc: Global, literal: &[u8]) -> Result<String, NoAnswer> {
    let value = unquoted(alloc, literal)?;
    let bytes = value.as_slice();
    let text = escaped(alloc, bytes)?;
    Ok(format!(in alloc; "{} bytes: {text}", bytes.len())?)
}
