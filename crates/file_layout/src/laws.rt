//! The law of what is written.

ghost use Rattle.file_layout.specs.Layout.{Source, file_bytes};
ghost use Rattle.file_layout.specs.Law.{CanBeWritten, Serves};

/// What is laid out is read again: the bytes are a full file, whose index lists the names that are to be written and no
/// others, and at the offset of each the declaration that it has is spelled.
pub fn a_file_serves_its_readers()
    ensures { (source : Source) → CanBeWritten source → Serves source (file_bytes source) }
{}
