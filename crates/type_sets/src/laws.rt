//! The laws of the definitions, as clauses of functions that do nothing.

ghost use Rattle.std.specs.Prelude.{◌≡◌, ◌≢◌, ◌≤◌, ◌↔◌, List, [], length, true, Option, Some, Ok};
ghost use Rattle.std.specs.List.{All, AllPairs, Contains, list_any};
ghost use Rattle.go_values.specs.declared.qualified.QName.{QName as Name};
ghost use Rattle.code_tables.specs.declared.predeclared.Basic.TheVariants.{Comparable};
ghost use Rattle.type_terms.specs.Trees.{Tree, predeclared};
ghost use Rattle.interface_opening.specs.Elements.{Term, Interface, Opened};
ghost use Rattle.interface_opening.specs.Having.{HasAll};
ghost use Rattle.interface_opening.specs.Terms.{meet_lists};
ghost use Rattle.interface_opening.specs.Meeting.{IsMeeting};
ghost use Rattle.replacement.specs.Expansion.{Entries};
ghost use Rattle.type_sets.specs.Interfaces.{SetMethod, same_key, interface_of};
ghost use Rattle.type_sets.specs.TypeSets.{looks, opened, same_term, covers, Ascend, with_methods, first_of_key};

/// Each distinct interface is opened once, and at most 65,536 are.
pub fn each_interface_is_opened_once()
    ensures once { (entries : Entries) (names : List Name) (type : Tree) (s : Opened Tree SetMethod)
        → opened entries names type ≡ Ok s → AllPairs (λ left right. left ≢ right) s.types }
    ensures within { (entries : Entries) (names : List Name) (type : Tree) (s : Opened Tree SetMethod)
        → opened entries names type ≡ Ok s → length s.types ≤ 65536 }
{}

/// Methods and flag are those of the interfaces that were opened: own methods in the order of the opening, and the flag
/// where one of them has it.
pub fn what_is_opened_gives_the_set()
    ensures { (entries : Entries) (names : List Name) (type : Tree) (s : Opened Tree SetMethod)
        → opened entries names type ≡ Ok s → HasAll (looks entries names) s }
{}

/// An interface has the flag exactly where it is `comparable`.
pub fn the_flag_is_that_of_comparable()
    ensures { (name : Option Name) (under : Tree) (shown : Interface Tree Name SetMethod)
        → interface_of name under ≡ Some shown → (shown.flag ≡ true) ↔ (under ≡ predeclared Comparable) }
{}

/// The methods of a type set stand in their order, and are the first of each key that was met.
pub fn the_first_of_a_key_counts()
    ensures sorted { (met : List SetMethod) → Ascend (with_methods met []) }
    ensures first { (met : List SetMethod) (method : SetMethod) → Contains (with_methods met []) method
        → first_of_key method met ≡ Some method }
    ensures all { (met : List SetMethod) (method : SetMethod) → Contains met method
        → list_any (same_key method) (with_methods met []) ≡ true }
{}

/// The terms that two elements leave are those that one of each have in common, and all of those: of two terms the one
/// that the other covers.
pub fn terms_are_those_in_common()
    ensures only { (entries : Entries) (names : List Name) (xs ys zs : List (Term Tree))
        → meet_lists same_term (covers entries names) xs ys [] ≡ Ok zs
        → All (IsMeeting (covers entries names) xs ys) zs }
    ensures all { (entries : Entries) (names : List Name) (xs ys zs : List (Term Tree))
        → meet_lists same_term (covers entries names) xs ys [] ≡ Ok zs → (z : Term Tree)
        → IsMeeting (covers entries names) xs ys z → list_any (same_term z) zs ≡ true }
{}
