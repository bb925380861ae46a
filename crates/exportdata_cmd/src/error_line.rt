ghost use Rattle.std.specs.Prelude.{◌≡◌, ◌++◌, IfOk, OnOk};
ghost use Rattle.decl_text.specs.Printed.{printed};
ghost use Rattle.exportdata_cmd.specs.Printed.{line as text_line};
ghost use Rattle.exportdata_cmd.specs.Endings.{damaged_end};

use crate::exits::Status;
use crate::printing::{put_fault, put_number};
use decl_text::put_printed;
use std::alloc::{AllocError, Global};
use wire_bytes::ByteFault;

/// The line that a command writes where it isn't carried out.
#[derive(Debug, Drop)]
pub enum ErrorLine {
    /// The word of this number, from 1, is wrong.
    WrongWord(usize),
    /// There is no such file.
    Missing(String),
    /// The file can't be read.
    CannotRead(String),
    /// The bytes of the file with this label spell no file.
    Damaged { label: String, fault: ByteFault },
    /// The files are too many.
    LimitFiles,
    /// A file is too long, or all of them together are.
    LimitBytes,
    /// The types that are read have too many nodes.
    LimitNodes,
    /// Memory is wanting.
    NoMemory,
}

impl ErrorLine {
    ghost use Rattle.exportdata_cmd.specs.Endings.{end_of};

    /// The status that goes with the line.
    pub fn status(&self) -> Status
        ensures { result ≡ (end_of self.now).status }
    {
        match self {
            ErrorLine::WrongWord(_) => Status::Words,
            ErrorLine::Missing(_) | ErrorLine::Damaged { .. } => Status::Refused,
            ErrorLine::CannotRead(_) => Status::Files,
            ErrorLine::LimitFiles | ErrorLine::LimitBytes | ErrorLine::LimitNodes => Status::Limit,
            ErrorLine::NoMemory => Status::Memory,
        }
    }

    /// The line, with its line feed.
    pub fn line(&self, alloc: Global) -> Result<Vec<u8>, AllocError>
        ensures { IfOk result (λ line. line.items ≡ (end_of self.now).error) }
    {
        let mut line = Vec::new(alloc);
        self.put_line(&mut line)?;
        Ok(line)
    }

    // Adds the line.
    fn put_line(&self, line: &mut Vec<u8>) -> Result<(), AllocError>
        ensures { OnOk result (line.new.items ≡ line.old.items ++ (end_of self.now).error) }
    {
        match self {
            ErrorLine::WrongWord(number) => {
                put_number(line, b"word ", *number as u64)?;
                line.extend_from_slice(b" is wrong\n")
            }
            ErrorLine::Missing(file) => put_named(line, b"missing ", file.as_str()),
            ErrorLine::CannotRead(file) => put_named(line, b"cannot read ", file.as_str()),
            ErrorLine::Damaged { label, fault } => put_damaged(line, label.as_str(), *fault),
            ErrorLine::LimitFiles => put_words(line, b"limit files"),
            ErrorLine::LimitBytes => put_words(line, b"limit bytes"),
            ErrorLine::LimitNodes => put_words(line, b"limit nodes"),
            ErrorLine::NoMemory => put_words(line, b"no memory"),
        }
    }
}

// Adds a line of some words.
fn put_words(line: &mut Vec<u8>, words: &[u8]) -> Result<(), AllocError>
    ensures { OnOk result (line.new.items ≡ line.old.items ++ text_line words.now) }
{
    line.extend_from_slice(words)?;
    line.extend_from_slice(b"\n")
}

// Adds a line of some words and the name of a file.
fn put_named(line: &mut Vec<u8>, words: &[u8], file: &str) -> Result<(), AllocError>
    ensures { OnOk result (line.new.items ≡ line.old.items ++ text_line (words.now ++ printed file.now)) }
{
    line.extend_from_slice(words)?;
    put_printed(line, file.as_bytes())?;
    line.extend_from_slice(b"\n")
}

// Adds the line of a file whose bytes have a fault.
fn put_damaged(line: &mut Vec<u8>, label: &str, fault: ByteFault) -> Result<(), AllocError>
    ensures { OnOk result (line.new.items ≡ line.old.items ++ (damaged_end label.now fault).error) }
{
    put_printed(line, label.as_bytes())?;
    line.extend_from_slice(b": ")?;
    put_fault(line, fault)?;
    line.extend_from_slice(b"\n")
}
