//! Laws of the readers of declarations, each the contract of a function that does nothing.

ghost use Rattle.std.specs.Prelude.{◌≡◌, ◌+◌, ◌≤◌, ℕ, List, length, false, Ok};
ghost use Rattle.wire_bytes.specs.declared.fault.ByteFault.{ByteFault};
ghost use Rattle.wire_bytes.specs.declared.fault.ByteFault.TheVariants.{Ended};
ghost use Rattle.wire_bytes.specs.Local.{is_ended, AreBytes, IsAmong};
ghost use Rattle.type_terms.specs.Declarations.{Decl};
ghost use Rattle.decl_spelling.specs.Constants.{Spelling, value_at};
ghost use Rattle.decl_spelling.specs.Declarations.{head_at, receiver_at, decl_at, FirstFault};
ghost use Rattle.decl_spelling.specs.Descriptors.{Flat, flat_at};
ghost use Rattle.decl_spelling.specs.Descent.{offset_of};
ghost use Rattle.decl_spelling.specs.Reading.{Ahead, start, list_at};
ghost use Rattle.decl_spelling.specs.Sections.{Sections, Basics, HoldsBytes, window};
ghost use Rattle.decl_locality.specs.LocalReaders.{IsLocal};
ghost use Rattle.decl_locality.specs.LongerFiles.{with_behind};

/// Reading a block's own bytes depends only on those up to where it ends or its fault is met: a descriptor, and of a
/// declaration the head, the methods and the value of a constant. What was read stays, whatever follows it, and so does
/// each fault but `Ended`, with the types that were named before it. `Ended` comes only where more bytes give another
/// answer. All that is named, and each other fault, stands at a byte that was left.
pub fn blocks_are_local()
    ensures descriptor { (src : Sections) → IsLocal (flat_at src) }
    ensures head { (src : Sections) → IsLocal (head_at src) }
    ensures methods { (src : Sections) → IsLocal (list_at (receiver_at src)) }
    ensures value { (src : Sections) (spelling : Spelling) → IsLocal (value_at src spelling) }
{}

/// A declaration and its first fault depend only on the bytes up to where it ends or the fault is met: both stay where
/// the data section goes on, and the fault stands at a byte of it, unless it is that the section ends. This stands at
/// its end, and comes only where more bytes give another answer.
pub fn declarations_are_local()
    ensures read { (src : Sections) (basics : Basics) (offset : ℕ) (decl : Decl) (more : List ℕ)
        → decl_at src basics offset ≡ Ok decl → decl_at (with_behind src more) basics offset ≡ Ok decl }
    ensures stays { (src : Sections) (basics : Basics) (offset : ℕ) (fault : ByteFault) (more : List ℕ)
        → FirstFault src basics offset fault → is_ended fault ≡ false
        → FirstFault (with_behind src more) basics offset fault }
    ensures inside { (src : Sections) (basics : Basics) (offset : ℕ) (fault : ByteFault)
        → FirstFault src basics offset fault → is_ended fault ≡ false
        → IsAmong src.body_at (src.body_at + length src.body) fault }
    ensures end { (src : Sections) (basics : Basics) (offset at : ℕ) → FirstFault src basics offset (Ended at)
        → at ≡ src.body_at + length src.body }
    ensures goes_on { (src : Sections) (basics : Basics) (offset at : ℕ) → FirstFault src basics offset (Ended at)
        → (more : List ℕ) × AreBytes more
        × ((at : ℕ) → FirstFault (with_behind src more) basics offset (Ended at) → ⊥) }
{}

/// A descriptor that is read up to a limit, and ends at or before an earlier stop, is read alike up to that stop: with
/// the same parts and the same end, and it names the same types.
pub fn descriptors_end_early()
    ensures { (src : Sections) → HoldsBytes src → (offset stop limit : ℕ) → stop ≤ limit → limit ≤ length src.body
        → (flat : Flat) (a : Ahead) → flat_at src (start (window src offset limit)) ≡ Ok (flat, a)
        → offset_of src a ≤ stop
        → (b : Ahead) × (flat_at src (start (window src offset stop)) ≡ Ok (flat, b)) × (b.mentions ≡ a.mentions)
        × (offset_of src b ≡ offset_of src a) }
{}
