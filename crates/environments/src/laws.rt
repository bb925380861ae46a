//! The laws of the definitions, as clauses of functions that do nothing.

ghost use Rattle.std.specs.Prelude.{◌≡◌, ◌↔◌, List, [], ◌∷◌, ◌++◌, length, Bool, true, IsTrue, Option, None, nat_eq};
ghost use Rattle.std.specs.Prelude.{option_map};
ghost use Rattle.std.specs.Map.{lookup};
ghost use Rattle.std.specs.Cmp.Lexicographic.{pointwise};
ghost use Rattle.std.specs.List.{flat_map, Contains};
ghost use Rattle.go_values.specs.declared.qualified.QName.{QName as Name};
ghost use Rattle.type_terms.specs.declared.descriptors.Node.{Node};
ghost use Rattle.type_terms.specs.declared.declarations.DeclNode.{DeclNode};
ghost use Rattle.type_terms.specs.Arenas.{AllBelow};
ghost use Rattle.type_terms.specs.Declarations.{decl_nodes, decl_of};
ghost use Rattle.type_terms.specs.DeclarationRules.{IsProperDecl};
ghost use Rattle.type_terms.specs.Trees.{Text, Tree, named, parameter, alias, instance, Trees, type_list};
ghost use Rattle.type_terms.specs.Parts.{parts};
ghost use Rattle.environments.specs.Environments.{Entry};
ghost use Rattle.environments.specs.Exported.{IsExported, exported};
ghost use Rattle.environments.specs.Packages.{IsRising, Named, name_of, package_decl, HoldsParameters, DeclsStand};
ghost use Rattle.environments.specs.Packages.{meant_decls};
ghost use Rattle.environments.specs.References.{Reached, IsByParts, tree_references, entry_names};

use crate::mentions::Role;

/// A name is a reference itself. The references of an instance are those of its arguments, and then its base with as
/// many arguments. Those of every other type are those of its parts, in reading order.
pub fn references_follow_the_parts()
    ensures names { (q : Name)
        → (tree_references (named q) ≡ record { name = q; role = Role.Defined } ∷ [])
        × (tree_references (parameter q) ≡ record { name = q; role = Role.Parameter } ∷ [])
        × (tree_references (alias q) ≡ record { name = q; role = Role.Alias } ∷ []) }
    ensures instances { (q : Name) (args : Trees)
        → (tree_references (instance (named q) args) ≡ flat_map tree_references (type_list args)
        ++ record { name = q; role = Role.DefinedBase (length (type_list args)) } ∷ [])
        × (tree_references (instance (alias q) args) ≡ flat_map tree_references (type_list args)
        ++ record { name = q; role = Role.AliasBase (length (type_list args)) } ∷ []) }
    ensures others { (type : Tree) → IsByParts type → tree_references type ≡ flat_map tree_references (parts type) }
{}

/// What is reached from names is the least set that has them and, with a name, those to which its declaration refers:
/// it is such a set, and a test that holds of one holds of all that are reached.
pub fn reach_is_least()
    ensures starts { (entries : Name → Option Entry) (starts : List Name) (q : Name) → Contains starts q
        → Reached entries starts q }
    ensures closed { (entries : Name → Option Entry) (starts : List Name) (from to : Name)
        → Reached entries starts from → Contains (entry_names (entries from)) to → Reached entries starts to }
    ensures least { (entries : Name → Option Entry) (starts : List Name) (test : Name → Bool)
        → ((q : Name) → Contains starts q → test q ≡ true)
        → ((from to : Name) → test from ≡ true → Contains (entry_names (entries from)) to → test to ≡ true)
        → (q : Name) → Reached entries starts q → test q ≡ true }
{}

/// What is reached from names that are reached is reached.
pub fn reach_is_idempotent()
    ensures { (entries : Name → Option Entry) (starts more : List Name)
        → ((q : Name) → Contains more q → Reached entries starts q) → (q : Name) → Reached entries more q
        → Reached entries starts q }
{}

/// From more names no fewer are reached.
pub fn reach_is_monotone()
    ensures { (entries : Name → Option Entry) (fewer more : List Name)
        → ((q : Name) → Contains fewer q → Contains more q) → (q : Name) → Reached entries fewer q
        → Reached entries more q }
{}

/// A package has one declaration more, of a name that it doesn't declare, which keeps the rules: then it stands.
pub fn one_more_declaration_stands()
    ensures { (front back : List Named) (name : Text) (decl : DeclNode) → package_decl (front ++ back) name ≡ None
        → (nodes : List Node) (path : Text) → DeclsStand nodes path (front ++ back)
        → IsRising name_of (front ++ (name, decl) ∷ back) → AllBelow (length nodes) (decl_nodes decl)
        → IsProperDecl (decl_of nodes decl)
        → HoldsParameters path (front ++ (name, decl) ∷ back) name (decl_of nodes decl)
        → DeclsStand nodes path (front ++ (name, decl) ∷ back) }
{}

/// What a package that is meant has for a name is what the node of its declaration means.
pub fn a_package_means_its_declarations()
    ensures { (nodes : List Node) (decls : List Named) (name : Text)
        → lookup (pointwise nat_eq name) (meant_decls nodes decls)
        ≡ option_map (decl_of nodes) (package_decl decls name) }
{}

/// A test tells exported names.
pub fn exported_names_are_tested()
    ensures { (name : Text) → IsTrue (exported name) ↔ IsExported name }
{}
