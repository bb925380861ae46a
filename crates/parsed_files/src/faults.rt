//! One file: its tree, or why it has none.

ghost use Rattle.std.specs.Prelude.{◌≤◌, length, IfOk};
ghost use Rattle.go_lexer.specs.declared.lexing.TheConstants.{SOURCE_LIMIT};
ghost use Rattle.go_syntax.specs.StandingFiles.{FileStands};
ghost use Rattle.parsed_files.specs.Outcomes.{ReadsAs, outcome};

use go_lexer::{LexFault, lex};
use go_syntax::{LeftOutKind, SourceFile, SyntaxFault, parse};
use std::alloc::Global;

/// Why a file has no tree.
#[derive(Clone, Copy, Debug, PartialEq, Eq)]
pub enum FileFault {
    /// Its bytes are no tokens.
    Lex(LexFault),
    /// Its tokens are none of the grammar.
    Unexpected,
    /// It has a form that the profile leaves out.
    LeftOut(LeftOutKind),
}

/// A fault and the byte at which it stands.
#[derive(Clone, Copy, Debug, PartialEq, Eq)]
pub(crate) struct FaultAt {
    pub at: u32,
    pub cause: FileFault,
}

/// Why a file isn't read.
#[derive(Debug, Drop)]
pub(crate) enum FileError {
    Fault(FaultAt),
    OutOfMemory,
}

impl From<LexFault> for FileError {
    ghost use Rattle.std.specs.Prelude.{◌≡◌};
    ghost use Rattle.parsed_files.specs.Outcomes.{lex_error};

    ghost from_gives = { λ fault e. e ≡ lex_error fault };

    fn from(fault: LexFault) -> FileError {
        match fault {
            LexFault::BadUtf8 { at }
            | LexFault::Nul { at }
            | LexFault::BadChar { at }
            | LexFault::OpenString { at }
            | LexFault::OpenComment { at }
            | LexFault::BadEscape { at }
            | LexFault::BadNumber { at } => FileError::Fault(FaultAt {
                at,
                cause: FileFault::Lex(fault),
            }),
            LexFault::OutOfMemory => FileError::OutOfMemory,
        }
    }
}

impl From<SyntaxFault> for FileError {
    ghost use Rattle.std.specs.Prelude.{◌≡◌};
    ghost use Rattle.parsed_files.specs.Outcomes.{syntax_error};

    ghost from_gives = { λ fault e. e ≡ syntax_error fault };

    fn from(fault: SyntaxFault) -> FileError {
        match fault {
            SyntaxFault::Unexpected { at } => FileError::Fault(FaultAt {
                at,
                cause: FileFault::Unexpected,
            }),
            SyntaxFault::LeftOut { at, what } => FileError::Fault(FaultAt {
                at,
                cause: FileFault::LeftOut(what),
            }),
            SyntaxFault::OutOfMemory => FileError::OutOfMemory,
        }
    }
}

/// The tree of a file, or its first fault.
pub(crate) fn read_file(alloc: Global, source: &[u8]) -> Result<SourceFile, FileError>
    requires { length source.now ≤ SOURCE_LIMIT }
    ensures exact { ReadsAs result (outcome source.now) }
    ensures stands { IfOk result (λ tree. FileStands source.now tree) }
{
    let tokens = lex(alloc, source)?;
    Ok(parse(alloc, &tokens)?)
}
