//! Laws of the spelling of declarations, each the contract of a function that does nothing.

ghost use Rattle.std.specs.Prelude.{◌≡◌, ◌≢◌, ◌≤◌, ℕ, ◌⊎◌, List, Ok, length};
ghost use Rattle.std.specs.List.{AllPairs, Contains};
ghost use Rattle.wire_bytes.specs.declared.fault.ByteFault.{ByteFault};
ghost use Rattle.type_terms.specs.Trees.{Tree};
ghost use Rattle.type_terms.specs.Declarations.{Decl};
ghost use Rattle.type_terms.specs.Arenas.{Contents, Extends};
ghost use Rattle.type_terms.specs.Additions.{StandsIn, AddsOnly, Outgrows};
ghost use Rattle.decl_spelling.specs.Sections.{Sections, Basics, HoldsBytes};
ghost use Rattle.decl_spelling.specs.Declarations.{Read, read_at, decl_of, spelled_of, decl_at, FirstFault};
ghost use Rattle.decl_spelling.specs.Leaving.{types_read};
ghost use Rattle.decl_spelling.specs.Spelling.{Block, Says, block_spelled, Sound, SpellsDecl, spelled_with};
ghost use Rattle.decl_spelling.specs.OneFile.{NamesType, IsOfFile, type_count, HoldsTypesOf};

/// At an offset a declaration is spelled, or the bytes there have a first fault; it is one declaration at the most,
/// spelled with one list of parts, and one first fault at the most, and never both.
pub fn declaration_or_fault()
    ensures either { (src : Sections) (basics : Basics) → HoldsBytes src → (offset : ℕ)
        → ((decl : Decl) × SpellsDecl src basics offset decl)
        ⊎ ((fault : ByteFault) × FirstFault src basics offset fault) }
    ensures one_declaration { (src : Sections) (basics : Basics) → HoldsBytes src → (offset : ℕ) (a b : Decl)
        → SpellsDecl src basics offset a → SpellsDecl src basics offset b → a ≡ b }
    ensures one_spelling { (src : Sections) (basics : Basics) → HoldsBytes src → (offset : ℕ) (a b : Decl)
        (first : SpellsDecl src basics offset a) (second : SpellsDecl src basics offset b)
        → spelled_with first ≡ spelled_with second }
    ensures one_fault { (src : Sections) (basics : Basics) (offset : ℕ) (a b : ByteFault)
        → FirstFault src basics offset a → FirstFault src basics offset b → a ≡ b }
    ensures not_both { (src : Sections) (basics : Basics) → HoldsBytes src
        → (offset : ℕ) (decl : Decl) (fault : ByteFault) → SpellsDecl src basics offset decl
        → FirstFault src basics offset fault → ⊥ }
{}

/// What is read at an offset is spelled there, with the parts that were read; and what is spelled there is read.
pub fn reading_decides()
    ensures found { (src : Sections) (basics : Basics) → HoldsBytes src → (offset : ℕ) (decl : Decl)
        → decl_at src basics offset ≡ Ok decl → SpellsDecl src basics offset decl }
    ensures again { (src : Sections) (basics : Basics) → HoldsBytes src → (offset : ℕ) (decl : Decl)
        → SpellsDecl src basics offset decl → decl_at src basics offset ≡ Ok decl }
    ensures parts { (src : Sections) (basics : Basics) → HoldsBytes src → (offset : ℕ) (read : Read)
        → read_at src basics offset ≡ Ok read
        → (spells : SpellsDecl src basics offset (decl_of src read)) × (spelled_with spells ≡ spelled_of read) }
{}

/// At an offset one descriptor is spelled at the most, with one end and one list of parts, whichever blocks explain it.
pub fn one_type()
    ensures block { (src : Sections) → HoldsBytes src → (some others : List Block) → Sound src some → Sound src others
        → (a b : Block) → Contains some a → Contains others b → a.start ≡ b.start → a ≡ b }
    ensures parts { (src : Sections) → HoldsBytes src → (some others : List Block) (a b : Block)
        (first : Says src some a) (second : Says src others b) → a.start ≡ b.start
        → block_spelled first ≡ block_spelled second }
{}

/// Blocks that explain each other spell a declaration that some of them spell, so one list of blocks serves for all
/// declarations of a file.
pub fn more_blocks()
    ensures { (src : Sections) (basics : Basics) (offset : ℕ) (decl : Decl) (spells : SpellsDecl src basics offset decl)
        (all : List Block) → Sound src all → ((block : Block) → Contains spells.blocks block → Contains all block)
        → (more : SpellsDecl src basics offset decl) × (more.blocks ≡ all) }
{}

/// The types of one file are no more than its typeOffs may be: each type that is read of it has a number, and no number
/// has two.
pub fn types_of_one_file()
    ensures read { (src : Sections) (basics : Basics) → HoldsBytes src → (offset : ℕ) (type : Tree)
        → StandsIn (types_read src basics offset) type → IsOfFile src type }
    ensures one { (src : Sections) → HoldsBytes src → (number : ℕ) (a b : Tree) → NamesType src number a
        → NamesType src number b → a ≡ b }
    ensures few { (src : Sections) → HoldsBytes src → (types : List Tree) → AllPairs (λ left right. left ≢ right) types
        → ((type : Tree) → Contains types type → IsOfFile src type) → length types ≤ type_count src }
{}

/// An arena that has the types of one file alone has them alone as more of it is read; and where it may have a node for
/// each typeOff it always has room.
pub fn one_file_has_room()
    ensures stays { (src : Sections) (basics : Basics) → HoldsBytes src → (offset : ℕ) (old new : Contents)
        → HoldsTypesOf src old → Extends old new → AddsOnly (types_read src basics offset) old new
        → HoldsTypesOf src new }
    ensures room { (src : Sections) (basics : Basics) → HoldsBytes src → (offset : ℕ) (arena : Contents)
        → HoldsTypesOf src arena → type_count src ≤ arena.limit → Outgrows arena (types_read src basics offset) → ⊥ }
{}
