//! What is written of a type keeps.

ghost use Rattle.std.specs.Prelude.{◌↔◌, List};
ghost use Rattle.std.specs.List.{Contains};
ghost use Rattle.std.specs.List.Sorted.{IsPermutation, IsSortedBy, IsStableBy};
ghost use Rattle.go_values.specs.declared.qualified.QName.{QName as Name};
ghost use Rattle.type_terms.specs.Trees.{Tree};
ghost use Rattle.type_terms.specs.Declarations.{Decl};
ghost use Rattle.environments.specs.References.{tree_references, reference_names};
ghost use Rattle.environments.specs.declared.mentions.Reference.{Reference};
ghost use Rattle.written_types.specs.ByName.{Method, is_before, by_name};
ghost use Rattle.written_types.specs.Written.{Target, written, decl_written};

/// Methods by name are the same methods, those of lesser names first, and those of one name as they stood.
pub fn methods_by_name()
    ensures all { (methods : List Method) → IsPermutation methods (by_name methods) }
    ensures sorted { (methods : List Method) → IsSortedBy is_before (by_name methods) }
    ensures stable { (methods : List Method) → IsStableBy is_before methods (by_name methods) }
{}

/// What is written of a type refers to the same names in the same roles, and so does what is written of a declaration.
pub fn the_same_names()
    ensures types { (target : Target) (type : Tree) (reference : Reference)
        → Contains (tree_references (written target type)) reference ↔ Contains (tree_references type) reference }
    ensures decls { (target : Target) (decl : Decl) (q : Name)
        → Contains (reference_names (decl_written target decl)) q ↔ Contains (reference_names decl) q }
{}
