//! The first fault of each code that was found in files.

ghost use Rattle.std.specs.Prelude.{◌≡◌};
ghost use Rattle.parsed_files.specs.FirstFaults.{no_faults, with_fault};
ghost use Rattle.parsed_files.specs.Outcomes.{placed};

use crate::faults::{FaultAt, FileFault};
use source_places::{Found, Place, earlier};

/// The first fault of each code.
#[derive(Drop)]
pub(crate) struct FirstFaults {
    pub lex: Option<Found<FileFault>>,
    pub syntax: Option<Found<FileFault>>,
    pub left_out: Option<Found<FileFault>>,
}

impl FirstFaults {
    pub(crate) fn new() -> FirstFaults
        ensures { result ≡ no_faults }
    {
        FirstFaults {
            lex: None,
            syntax: None,
            left_out: None,
        }
    }

    /// Takes in a fault of the file with this number.
    pub(crate) fn note(&mut self, file: usize, fault: FaultAt)
        ensures { self.new ≡ with_fault self.old fault.cause (placed file fault) }
    {
        let place = Place { file, at: fault.at };
        let found = Some(Found {
            place,
            cause: fault.cause,
        });
        match fault.cause {
            FileFault::Lex(_) => self.lex = earlier(self.lex.take(), found),
            FileFault::Unexpected => self.syntax = earlier(self.syntax.take(), found),
            FileFault::LeftOut(_) => self.left_out = earlier(self.left_out.take(), found),
        }
    }
}
