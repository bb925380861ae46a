//! Laws of reading with a memory, each the contract of a function that does nothing.

ghost use Rattle.std.specs.Prelude.{◌≡◌, ◌≤◌, ℕ, List, [], length, map, min, None, Ok};
ghost use Rattle.std.specs.Option.{option_or};
ghost use Rattle.decl_spelling.specs.Sections.{Sections, Basics, HoldsBytes};
ghost use Rattle.decl_spelling.specs.Tables.{Finished, Table, at, with_block, free_to};
ghost use Rattle.decl_spelling.specs.KnownTypes.{Kept};
ghost use Rattle.decl_spelling.specs.Declarations.{Read, read_at, decl_of, spelled_of, decl_at};
ghost use Rattle.shared_reading.specs.Memory.{InOrder, IsMemory, Overlaps, Joins};
ghost use Rattle.shared_reading.specs.WithMemory.{read_with, shared_at, widened};
ghost use Rattle.shared_reading.specs.Counted.{bytes_in, steps_of, read_in_turn, LieApart};

/// A declaration that is read with a memory of its file is what it is by itself, or has the same first fault. What is
/// remembered then is a memory of the file again, and has all that was remembered before. A memory may begin with
/// nothing.
pub fn shared_declarations()
    ensures nothing { (src : Sections) → IsMemory src [] }
    ensures plain { (src : Sections) (basics : Basics) → HoldsBytes src → (memory : Table) → IsMemory src memory
        → (offset : ℕ) → shared_at src basics memory offset ≡ decl_at src basics offset }
    ensures keeps { (src : Sections) (basics : Basics) → HoldsBytes src → (memory : Table) → IsMemory src memory
        → (offset : ℕ) → IsMemory src (widened src basics memory offset) }
    ensures grows { (src : Sections) (basics : Basics) → HoldsBytes src → (memory : Table) → IsMemory src memory
        → (offset : ℕ) → Kept memory (widened src basics memory offset) }
{}

/// With a memory all is read exactly where it is read by itself, and no descriptor of the declaration overlaps one that
/// is remembered. What is remembered then are the descriptors of both.
pub fn apart_from_memory()
    ensures apart { (src : Sections) (basics : Basics) → HoldsBytes src → (memory : Table) → IsMemory src memory
        → (offset : ℕ) (read : Read) → read_with src basics memory offset ≡ Ok read
        → (alone : Read) × (read_at src basics offset ≡ Ok alone) × (decl_of src alone ≡ decl_of src read)
        × (spelled_of alone ≡ spelled_of read) × (alone.end ≡ read.end) × Joins memory alone.table read.table
        × (Overlaps alone.table memory → ⊥) }
    ensures shared { (src : Sections) (basics : Basics) → HoldsBytes src → (memory : Table) → IsMemory src memory
        → (offset : ℕ) (alone : Read) → read_at src basics offset ≡ Ok alone
        → (Overlaps alone.table memory → ⊥) → (read : Read) × (read_with src basics memory offset ≡ Ok read) }
{}

/// What is remembered has at most as many bytes as the data section, and one declaration takes at most as many steps.
/// Where the descriptors of declarations lie apart, all of these are read in turn, and all steps come to at most the
/// length of the data section.
pub fn counted_once()
    ensures descriptors { (src : Sections) (memory : Table) → IsMemory src memory
        → bytes_in memory ≤ length src.body }
    ensures one { (src : Sections) (basics : Basics) → HoldsBytes src → (memory : Table) → IsMemory src memory
        → (offset : ℕ) (read : Read) → read_with src basics memory offset ≡ Ok read
        → steps_of src memory offset read ≤ length src.body }
    ensures all { (src : Sections) (basics : Basics) → HoldsBytes src → (decls : List (ℕ × Read))
        → LieApart src basics decls
        → (last : Table) × (steps : ℕ) × (read_in_turn src basics [] (map (λ decl. decl.0) decls) ≡ Ok (last, steps))
        × (steps ≤ length src.body) }
{}

/// What is known by two tables together is found in one of them, and is free where both are. So it is as descriptors
/// join the second.
pub fn two_tables()
    ensures begins { (some : Table) → Joins some [] some }
    ensures goes_on { (some others all : Table) → InOrder others → InOrder all → Joins some others all
        → (offset : ℕ) (finished : Finished) → at all offset ≡ None
        → Joins some (with_block others offset finished) (with_block all offset finished) }
    ensures found { (some others all : Table) → InOrder some → InOrder others → InOrder all → Joins some others all
        → (offset : ℕ) → at all offset ≡ option_or (at some offset) (at others offset) }
    ensures free { (some others all : Table) → InOrder some → InOrder others → InOrder all → Joins some others all
        → (offset limit : ℕ) → offset ≤ limit
        → free_to offset limit all ≡ min (free_to offset limit some) (free_to offset limit others) }
{}
