//! What comes of opening interfaces, whatever stands for types.

ghost use Rattle.std.specs.Prelude.{◌≡◌, ◌≢◌, ◌≤◌, ℕ, suc, List, [], ◌∷◌, ◌++◌, length, Bool, true, Result, Ok, Err};
ghost use Rattle.std.specs.List.{All, AllByRecursion, AllPairs, list_any};
ghost use Rattle.interface_opening.specs.Elements.{Term, Interface, Event, Opened};
ghost use Rattle.interface_opening.specs.Opening.{Item, goes, stops, opens, step, joining, inside, opened_with};
ghost use Rattle.interface_opening.specs.Opening.{noting, marking, opening, none_opened};
ghost use Rattle.interface_opening.specs.Mapped.{event_mapped, opened_mapped, AgreeOn};
ghost use Rattle.interface_opening.specs.Having.{HasAll};
ghost use Rattle.interface_opening.specs.Terms.{meet_lists};
ghost use Rattle.interface_opening.specs.Meeting.{IsMeeting};

/// What stands for types, names of defined types and methods, and what is asked of them.
pub trait Openable {
    ghost use Rattle.std.specs.Prelude.{◌≡◌, Bool, true, Result};
    ghost use Rattle.interface_opening.specs.Elements.{Term, Looks};

    ghost Ty: { Type 0 };

    ghost Name: { Type 0 };

    ghost Method: { Type 0 };

    ghost Fault: { Type 0 };

    ghost looks: { Looks Ty Name Method Fault };

    /// Whether two terms are the same.
    ghost same_term: { Term Ty → Term Ty → Bool };

    /// Whether the first term is covered by the second.
    ghost covered: { Term Ty → Term Ty → Result Bool Fault };

    /// Equal types are the same.
    ghost reflexive: { (a : Ty) → looks.same a a ≡ true };

    /// Equal terms are the same.
    ghost same_reflexive: { (a : Term Ty) → same_term a a ≡ true };
}

/// Each distinct interface is opened once, and no more than may be.
pub fn each_opened_once<O: Openable>()
    ensures once { (n : ℕ) (items : List (Item O.Ty O.Name)) (s : Opened O.Ty O.Method)
        → opening O.looks n items none_opened ≡ Ok s → AllPairs (λ a b. a ≢ b) s.types }
    ensures within { (n : ℕ) (items : List (Item O.Ty O.Name)) (s : Opened O.Ty O.Method)
        → opening O.looks n items none_opened ≡ Ok s → length s.types ≤ n }
{}

/// The methods are those of the interfaces that were opened, own ones in order, and the flag is set exactly where one
/// of them has it.
pub fn of_the_opened<O: Openable>()
    ensures { (n : ℕ) (items : List (Item O.Ty O.Name)) (s : Opened O.Ty O.Method)
        → opening O.looks n items none_opened ≡ Ok s → HasAll O.looks s }
{}

/// What doesn't come to too many interfaces is the same where more may be opened.
pub fn more_room<O: Openable>()
    ensures { (n : ℕ) (items : List (Item O.Ty O.Name)) (s : Opened O.Ty O.Method)
        → opening O.looks n items s ≢ Err O.looks.too_many
        → opening O.looks (suc n) items s ≡ opening O.looks n items s }
{}

/// The terms that two elements leave are those that one of each have in common, and all of those.
pub fn terms_in_common<O: Openable>()
    ensures only { (xs ys zs : List (Term O.Ty)) → meet_lists O.same_term O.covered xs ys [] ≡ Ok zs
        → All (IsMeeting O.covered xs ys) zs }
    ensures all { (xs ys zs : List (Term O.Ty)) → meet_lists O.same_term O.covered xs ys [] ≡ Ok zs
        → (z : Term O.Ty) → IsMeeting O.covered xs ys z → list_any (O.same_term z) zs ≡ true }
{}

/// An opening goes item by item. An item that leads to an interface that is new opens it, where one more may be opened,
/// and what the interface leaves to be done comes before what was left.
pub fn an_item_at_a_time<O: Openable>()
    ensures done { (n : ℕ) (s : Opened O.Ty O.Method) → opening O.looks n [] s ≡ Ok s }
    ensures on { (n : ℕ) (item : Item O.Ty O.Name) (rest : List (Item O.Ty O.Name)) (s t : Opened O.Ty O.Method)
        → step O.looks item rest s ≡ goes t → opening O.looks n (item ∷ rest) s ≡ opening O.looks n rest t }
    ensures fault { (n : ℕ) (item : Item O.Ty O.Name) (rest : List (Item O.Ty O.Name)) (s : Opened O.Ty O.Method)
        (f : O.Fault) → step O.looks item rest s ≡ stops f → opening O.looks n (item ∷ rest) s ≡ Err f }
    ensures opens { (n : ℕ) (item : Item O.Ty O.Name) (rest : List (Item O.Ty O.Name)) (s t : Opened O.Ty O.Method)
        (x : O.Ty) (it : Interface O.Ty O.Name O.Method) → step O.looks item rest s ≡ opens x it t
        → opening O.looks (suc n) (item ∷ rest) s
        ≡ opening O.looks n (inside O.looks x it ++ (joining O.looks item x ++ rest)) (opened_with O.looks x it t) }
    ensures full { (item : Item O.Ty O.Name) (rest : List (Item O.Ty O.Name)) (s t : Opened O.Ty O.Method)
        (x : O.Ty) (it : Interface O.Ty O.Name O.Method) → step O.looks item rest s ≡ opens x it t
        → opening O.looks 0 (item ∷ rest) s ≡ Err O.looks.too_many }
{}

/// What becomes known of numbers becomes known of the types that they stand for, where those that are known are told
/// apart alike: that something comes to an element, and that an interface is marked.
pub fn what_is_known_by_number<N: Openable, O: Openable>()
    ensures noting { (d : N.Ty → O.Ty) (m : N.Method → O.Method) (event : Event N.Ty) (s : Opened N.Ty N.Method)
        → noting O.looks (event_mapped d event) (opened_mapped d m s) ≡ opened_mapped d m (noting N.looks event s) }
    ensures marking { (d : N.Ty → O.Ty) (m : N.Method → O.Method) (known : N.Ty → Bool)
        → AgreeOn (λ a. known a ≡ true) d N.looks O.looks → (x : N.Ty) (s : Opened N.Ty N.Method)
        → AllByRecursion (λ a. known a ≡ true) s.marked → known x ≡ true
        → marking O.looks (d x) (opened_mapped d m s) ≡ opened_mapped d m (marking N.looks x s) }
{}
