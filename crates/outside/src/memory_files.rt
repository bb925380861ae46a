ghost use Rattle.std.specs.Prelude.{◌≡◌, ◌≤◌, ◌↔◌, ℕ, [], Option, None, Some, map, OnOk, OnErr, IfOk, IsErrOf, IfSome};
ghost use Rattle.std.specs.Prelude.{IsTrue, Contains};
ghost use Rattle.std.specs.Option.{option_map};
ghost use Rattle.std.specs.FinMap.{get, insert};
ghost use Rattle.std.specs.Ordering.{nat_cmp};
ghost use Rattle.std.specs.Cmp.Lexicographic.{slice_cmp};
ghost use Rattle.outside.specs.Counts.{Rose};
ghost use Rattle.outside.specs.Files.{Held, Appends, IsLonger, IfBothHeld, SameElsewhere};
ghost use Rattle.outside.specs.MemoryFiles.{Shelf, shelf_code, files_of, called};

use crate::file_access::{FetchFault, Files, StoreFault};
use std::alloc::{AllocError, Global};
use std::marker::Model;

/// Files in memory, with calls that fail on purpose. A look-up costs a pass over the names.
#[derive(Drop)]
pub struct MemoryFiles {
    alloc: Global,
    files: Vec<(String, Vec<u8>)>,
    failing: Vec<u64>,
    calls: u64,
    faults: u64,
}

impl Model for MemoryFiles {
    ghost Value = { Shelf };

    ghost coded = { shelf_code };

    ghost view = { λ s. record {
      files = files_of s.files.items;
      failing = s.failing.items;
      calls = s.calls;
      faults = s.faults;
    } };
}

impl MemoryFiles {
    /// Holds these files, of which the first counts where a name stands twice. The calls of `fetch` and `store` are
    /// numbered from 0 together, and those in `failing` fail and change nothing.
    pub fn new(
        alloc: Global,
        files: Vec<(String, Vec<u8>)>,
        failing: Vec<u64>,
    ) -> Result<MemoryFiles, AllocError>
        ensures { IfOk result (λ shelf. shelf ≡ record {
          files = files_of files.items;
          failing = failing.items;
          calls = 0;
          faults = 0;
        }) }
    {
        Ok(MemoryFiles {
            alloc,
            files,
            failing,
            calls: 0,
            faults: 0,
        })
    }

    // Counts a call, and tells whether it is one that fails.
    fn begins_failing_call(&mut self) -> bool
        ensures told { IsTrue result ↔ Contains self.old.failing self.old.calls }
        ensures counted { self.new ≡ called self.old }
        ensures rising { self.old.faults ≤ self.new.faults }
    {
        let fails = self.failing.contains(&self.calls);
        self.calls = self.calls.saturating_add(1);
        if fails {
            self.faults = self.faults.saturating_add(1);
        }
        fails
    }

    // The body of the named file.
    fn body_of(&self, name: &str) -> Option<&[u8]>
        ensures { option_map (λ body. body.now) result ≡ get self.now.files name.now }
    {
        for (key, body) in &self.files {
            if name == key.as_str() {
                return Some(body.as_slice());
            }
        }
        None
    }
}

impl Files for MemoryFiles {
    ghost held = { λ shelf. Some shelf.files };

    ghost faults = { λ shelf. shelf.faults };

    fn fetch(&mut self, name: &str, limit: usize, into: &mut Vec<u8>) -> Result<(), FetchFault>
        ensures appended { OnOk result (Appends (Some self.old.files) name.now limit into.old.items into.new.items) }
        ensures missing { IsErrOf result FetchFault.Missing → get self.old.files name.now ≡ None }
        ensures too_long { IsErrOf result FetchFault.TooLong → IsLonger (get self.old.files name.now) limit }
        ensures failed { IsErrOf result FetchFault.Failed → Rose self.old.faults self.new.faults }
        ensures refused { OnErr result (into.new.items ≡ into.old.items) }
        ensures kept { self.new.files ≡ self.old.files }
        ensures counted { self.old.faults ≤ self.new.faults }

        // Which calls fail, and all that a call changes.
        ensures planned { IsErrOf result FetchFault.Failed ↔ Contains self.old.failing self.old.calls }
        ensures exact { self.new ≡ called self.old }
    {
        if self.begins_failing_call() {
            return Err(FetchFault::Failed);
        }
        let Some(body) = self.body_of(name) else {
            return Err(FetchFault::Missing);
        };
        if body.len() > limit {
            return Err(FetchFault::TooLong);
        }
        match into.extend_from_slice(body) {
            Ok(()) => Ok(()),
            Err(_) => Err(FetchFault::OutOfMemory),
        }
    }

    fn store(&mut self, name: &str, bytes: &[u8]) -> Result<(), StoreFault>
        ensures planned { IsErrOf result StoreFault.Failed ↔ Contains self.old.failing self.old.calls }
        ensures stored { OnOk result
            (self.new ≡ record (called self.old) { files = insert self.old.files name.now bytes.now }) }
        ensures refused { OnErr result (self.new ≡ called self.old) }
        ensures counted { self.old.faults ≤ self.new.faults }
        ensures failed { IsErrOf result StoreFault.Failed → Rose self.old.faults self.new.faults }
    {
        if self.begins_failing_call() {
            return Err(StoreFault::Failed);
        }
        let Ok(key) = String::from_str(self.alloc, name) else {
            return Err(StoreFault::OutOfMemory);
        };
        let Ok(body) = Vec::from_slice(self.alloc, bytes) else {
            return Err(StoreFault::OutOfMemory);
        };
        match self.files.insert(0, (key, body)) {
            Ok(()) => Ok(()),
            Err(_) => Err(StoreFault::OutOfMemory),
        }
    }
}
