//! Counting names.

ghost use Rattle.std.specs.Prelude.{◌≡◌, List, length, OnOk, IfOk};
ghost use Rattle.type_terms.specs.declared.descriptors.Node.{Node};
ghost use Rattle.asked_names.specs.Finding.{Entries, AreFound};
ghost use Rattle.asked_names.specs.Counting.{declared_among, is_here, declared_of, IsEach, IsCount, IsNoted, IsNotedIf};

use crate::finding::Found;
use go_values::QName;
use indexmap::IndexSet;
use std::alloc::{AllocError, Global};

/// How many distinct names are declared of those that were looked up.
pub fn count_declared(alloc: Global, names: &[QName], found: &[Found]) -> Result<u64, AllocError>
    requires { length found.now ≡ length names.now }
    ensures { (nodes : List Node) (entries : Entries) → AreFound nodes entries names.now found.now
        → IfOk result (IsCount (declared_among entries names.now)) }
{
    let distinct = distinct_declared(alloc, names, found)?;
    Ok(distinct.len() as u64)
}

fn distinct_declared(
    alloc: Global,
    names: &[QName],
    found: &[Found],
) -> Result<IndexSet<QName>, AllocError>
    requires { length found.now ≡ length names.now }
    ensures { IfOk result (λ distinct. IsEach (declared_of names.now found.now) distinct.keys) }
{
    let mut distinct = IndexSet::new(alloc);
    for (place, one) in found.iter().enumerate() {
        note_declared(&mut distinct, &names[place], one)?;
    }
    Ok(distinct)
}

/// Notes a name for which a declaration was found.
fn note_declared(distinct: &mut IndexSet<QName>, q: &QName, found: &Found) -> Result<(), AllocError>
    ensures { OnOk result (IsNotedIf (is_here found.now) distinct.old.keys q.now distinct.new.keys) }
{
    match found {
        Found::Declared(_) => note(distinct, q),
        Found::Unknown | Found::Damaged(_) => Ok(()),
    }
}

/// Notes a name that isn't there.
fn note(distinct: &mut IndexSet<QName>, q: &QName) -> Result<(), AllocError>
    ensures { OnOk result (IsNoted distinct.old.keys q.now distinct.new.keys) }
{
    let q = q.clone()?;
    distinct.insert(q)?;
    Ok(())
}
