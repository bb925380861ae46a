//! All files of a package.

ghost use Rattle.std.specs.Prelude.{◌≡◌, ◌≤◌, IfErr, IfOk, length, map};
ghost use Rattle.std.specs.List.{All};
ghost use Rattle.go_lexer.specs.declared.lexing.TheConstants.{SOURCE_LIMIT};
ghost use Rattle.go_syntax.specs.StandingFiles.{FileStands};
ghost use Rattle.parsed_files.specs.Outcomes.{AreTrees, bytes_of, file_places};
ghost use Rattle.parsed_files.specs.FirstFaults.{AllTold, AreFirst, IsRefusedBy, parsed, trees_of};

use crate::faults::{FileError, FileFault, read_file};
use crate::first_faults::FirstFaults;
use refusal_codes::Code;
use source_places::{StageError, settle};
use source_walk::ParsedFile;
use std::alloc::{AllocError, Global};

/// The files that have trees, in their order, and the first faults of the others.
#[derive(Drop)]
struct ReadFiles<'s> {
    files: Vec<ParsedFile<'s>>,
    faults: FirstFaults,
}

/// Reads each file.
fn read_files<'s>(alloc: Global, sources: &[&'s [u8]]) -> Result<ReadFiles<'s>, AllocError>
    requires short { All (λ source. length source.now ≤ SOURCE_LIMIT) sources.now }
    ensures trees { IfOk result (λ read. map parsed read.files.items ≡ trees_of (bytes_of sources.now)) }
    ensures stand { IfOk result (λ read. All (λ file. FileStands file.source.now file.tree) read.files.items) }
    ensures first { IfOk result (λ read. AreFirst (file_places (bytes_of sources.now)) read.faults) }
    ensures told { IfOk result (λ _. AllTold (bytes_of sources.now)) }
{
    let mut files = Vec::new(alloc);
    let mut faults = FirstFaults::new();
    for (number, source) in sources.iter().enumerate() {
        match read_file(alloc, source) {
            Ok(tree) => files.push(ParsedFile { source, tree })?,
            Err(FileError::Fault(fault)) => faults.note(number, fault),
            Err(FileError::OutOfMemory) => return Err(AllocError),
        }
    }
    Ok(ReadFiles { files, faults })
}

/// The trees of the files of a package, in their order. It is refused under the first of the codes Lex, Syntax and
/// LeftOut under which one of the files has a fault, at the first such fault: so all files are read, whatever is found
/// in the first. A file has at most 4 MiB (docs/LANGUAGE.md, Refusals).
pub fn parse_files<'s>(
    alloc: Global,
    sources: &[&'s [u8]],
) -> Result<Vec<ParsedFile<'s>>, StageError<Code, FileFault, AllocError>>
    requires short { All (λ source. length source.now ≤ SOURCE_LIMIT) sources.now }
    // Each file has a tree, and these are they.
    ensures trees { IfOk result (λ files. AreTrees (bytes_of sources.now) files.items) }
    // What is answered stands in the sources.
    ensures stand { IfOk result (λ files. All (λ file. FileStands file.source.now file.tree) files.items) }
    // It is refused at the first place of the first code that has one.
    ensures refused { IfErr result (IsRefusedBy (file_places (bytes_of sources.now))) }
{
    let ReadFiles { files, faults } = match read_files(alloc, sources) {
        Ok(read) => read,
        Err(error) => return Err(StageError::Failed(error)),
    };
    settle(Code::Lex, faults.lex)?;
    settle(Code::Syntax, faults.syntax)?;
    settle(Code::LeftOut, faults.left_out)?;
    Ok(files)
}
