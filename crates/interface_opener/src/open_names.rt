//! The defined types whose interfaces are being opened.

ghost use Rattle.std.specs.Prelude.{◌≡◌, ◌∷◌, ℕ, List, false, OnOk};
ghost use Rattle.std.specs.List.{list_any};
ghost use Rattle.go_values.specs.declared.qualified.QName.{QName as Name};
ghost use Rattle.interface_opener.specs.Numbered.{by_number};
ghost use Rattle.interface_opener.specs.Stacked.{open_names};
ghost use Rattle.interface_opening.specs.Opening.{Item, closes, closing};
ghost use Rattle.type_terms.specs.TreeEquality.{same_name};

use go_values::QName;
use indexmap::IndexSet;
use std::alloc::AllocError;

/// Whether a defined type is one whose interface is being opened: its end is still to come. The set has the names of
/// these, in the order in which they were opened, so that no stack is searched.
pub fn is_open(names: &IndexSet<QName>, q: &QName) -> bool
    ensures told { result ≡ list_any (same_name q.now) names.now.keys }
    ensures closing { (due : List (Item ℕ Name)) → names.now.keys ≡ open_names due
        → result ≡ list_any (closing by_number q.now) due }
{
    names.contains(q)
}

/// The interface of a defined type that isn't open is opened.
pub fn begin(names: &mut IndexSet<QName>, q: QName) -> Result<(), AllocError>
    ensures { (due : List (Item ℕ Name)) → names.old.keys ≡ open_names due
        → list_any (same_name q) names.old.keys ≡ false
        → OnOk result (names.new.keys ≡ open_names (closes q ∷ due)) }
{
    names.insert(q)?;
    Ok(())
}

/// The interface that was opened last ends. Takes no memory.
pub fn end(names: &mut IndexSet<QName>)
    ensures { (due : List (Item ℕ Name)) (q : Name) → names.old.keys ≡ open_names (closes q ∷ due)
        → names.new.keys ≡ open_names due }
{
    names.pop();
}
