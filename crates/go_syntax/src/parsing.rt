ghost use Rattle.std.specs.Prelude.{◌≡◌, ◌≤◌, ℕ, [], length, IfOk, IfErr};
ghost use Rattle.go_expr_syntax.specs.Reading.{Gives};
ghost use Rattle.go_syntax.specs.Files.{file_at};
ghost use Rattle.go_syntax.specs.Decls.{IsFileOf};
ghost use Rattle.go_syntax.specs.Outcomes.{IsFile};
ghost use Rattle.go_expr_syntax.specs.TokenView.{symbols_of, place_of};
ghost use Rattle.go_syntax.specs.Parsing.{symbols, fault_of, answer_of, Tells, Answers, reading_of, IsReading};
ghost use Rattle.go_syntax.specs.StandingFiles.{FileStands};
ghost use Rattle.go_syntax.specs.declared.tree.SourceFile.{SourceFile};
ghost use Rattle.go_syntax.specs.declared.parsing.TheConstants.{MAX_DEPTH};
ghost use Rattle.go_lexer.specs.declared.lexing.TheConstants.{SOURCE_LIMIT};

use crate::files::read_file;
use crate::tree::SourceFile;
use go_expr_syntax::{Fault, Stop, symbols_of};
use go_lexer::{SourceTokens, Token};
use std::alloc::Global;

/// The most nodes on a path in the tree of a type or an expression.
pub const MAX_DEPTH: usize = 1_000;

/// What is left out, as a fault tells it.
#[derive(Clone, Copy, Debug, PartialEq, Eq)]
pub enum LeftOutKind {
    /// An import of all the names of a package.
    DotImport,
    /// A call, or a conversion by what is no name of a type.
    Call,
    /// A path of more than 1,000 nodes in the tree of a type.
    Depth,
}

/// Why a file has no tree, and the byte at which this is met.
#[derive(Clone, Copy, Debug, PartialEq, Eq)]
pub enum SyntaxFault {
    /// With the token there the tokens begin no file. At the length of the source, they begin one, and are none.
    Unexpected { at: u32 },
    /// With the token there the file has what is left out.
    LeftOut { at: u32, what: LeftOutKind },
    /// There is not enough memory for the tree.
    OutOfMemory,
}

/// The place at which this many tokens are left.
fn place(src: &[u8], tokens: &[Token], left: usize) -> u32
    requires { length src.now ≤ SOURCE_LIMIT }
    ensures { result ≡ place_of src.now tokens.now left }
{
    match tokens.get(tokens.len().saturating_sub(left)) {
        Some(token) => token.start,
        None => src.len() as u32,
    }
}

/// A fault at its place in the source.
fn fault_of(src: &[u8], tokens: &[Token], fault: Fault) -> SyntaxFault
    requires { length src.now ≤ SOURCE_LIMIT }
    ensures { result ≡ fault_of src.now tokens.now fault }
{
    match fault {
        Fault::Unexpected(left) => SyntaxFault::Unexpected {
            at: place(src, tokens, left),
        },
        Fault::Deep(_, at) => SyntaxFault::LeftOut {
            at,
            what: LeftOutKind::Depth,
        },
        Fault::DotImport(left) => SyntaxFault::LeftOut {
            at: place(src, tokens, left),
            what: LeftOutKind::DotImport,
        },
        Fault::Call(_, at) => SyntaxFault::LeftOut {
            at,
            what: LeftOutKind::Call,
        },
    }
}

/// The file that the tokens of a source are, or where reading stops.
fn read_source(alloc: Global, src: &[u8], tokens: &[Token]) -> Result<SourceFile, Stop>
    ensures { Gives (λ f. f) result (file_at MAX_DEPTH (symbols_of src.now tokens.now)) }
{
    let symbols = symbols_of(alloc, src, tokens)?;
    read_file(alloc, &symbols, MAX_DEPTH)
}

/// What is answered of a reading.
fn answer_of(
    src: &[u8],
    tokens: &[Token],
    read: Result<SourceFile, Stop>,
) -> Result<SourceFile, SyntaxFault>
    requires { length src.now ≤ SOURCE_LIMIT }
    ensures { result ≡ answer_of src.now tokens.now read }
{
    match read {
        Ok(file) => Ok(file),
        Err(Stop::OutOfMemory) => Err(SyntaxFault::OutOfMemory),
        Err(Stop::At(fault)) => Err(fault_of(src, tokens, fault)),
    }
}

/// The tree of a file. It takes time in proportion to the tokens.
pub fn parse(alloc: Global, source: &SourceTokens<'_>) -> Result<SourceFile, SyntaxFault>
    // The tokens are the file that is answered.
    ensures found { IfOk result (λ f. IsFile (symbols source.now) f) }
    // What is answered stands in the source: spans lie there and spell what they are, declared names are some, and
    // what constants repeat is before them.
    ensures stands { IfOk result (λ f. FileStands source.now.source f) }
    // A file with no path of more than 1,000 nodes is answered, unless memory ran out, and no other.
    ensures only { (m : ℕ) (f : SourceFile) → IsFileOf m (symbols source.now) f [] → m ≤ MAX_DEPTH
        → Answers result f }
    // No path of what is answered is longer.
    ensures within { IfOk result (λ x. (m : ℕ) (f : SourceFile) → IsFileOf m (symbols source.now) f []
        → m ≤ MAX_DEPTH) }
    // At each fault's place the tokens are what it says.
    ensures place { IfErr result (λ s. Tells source.now.source source.now.tokens s) }
    // The file and each fault, with its place, are what reading from the front gives, unless memory ran out.
    ensures exact { IsReading result (reading_of source.now.source source.now.tokens) }
{
    let src = source.source();
    let tokens = source.tokens();
    answer_of(src, tokens, read_source(alloc, src, tokens))
}
