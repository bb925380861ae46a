//! The first method of each key.

ghost use Rattle.std.specs.Prelude.{◌≡◌, ℕ, List, [], map, IfOk, OnOk};
ghost use Rattle.std.specs.List.{AllByRecursion};
ghost use Rattle.interface_nodes.specs.HeldNodes.{method_meant, method_nodes};
ghost use Rattle.set_methods.specs.Sets.{method_of, noted};
ghost use Rattle.type_sets.specs.TypeSets.{with_methods};
ghost use Rattle.type_terms.specs.Arenas.{AllBelow};
ghost use Rattle.type_terms.specs.declared.descriptors.Node.{Node as Descriptor};

use crate::keys::MethodKey;
use interface_nodes::SetMethod;
use std::alloc::{AllocError, Global};
use std::collections::BTreeMap;
use type_terms::Sig;

/// The first method of each key, in the order of the keys.
pub fn first_of_each(alloc: Global, methods: Vec<SetMethod>) -> Result<Vec<SetMethod>, AllocError>
    ensures exact { (nodes : List Descriptor) → IfOk result (λ own. map (method_meant nodes) own.items
        ≡ with_methods (map (method_meant nodes) methods.items) []) }
    ensures within { (n : ℕ) → AllByRecursion (λ x. AllBelow n (method_nodes x)) methods.items
        → IfOk result (λ own. AllByRecursion (λ x. AllBelow n (method_nodes x)) own.items) }
{
    let mut found = BTreeMap::new(alloc);
    for method in methods {
        note(&mut found, method)?;
    }
    listed(alloc, found)
}

/// Takes in a method, unless there is one of its key.
fn note(found: &mut BTreeMap<MethodKey, Sig>, method: SetMethod) -> Result<(), AllocError>
    ensures { OnOk result (found.new.entries ≡ noted found.old.entries method) }
{
    let key = MethodKey {
        name: method.name,
        home: method.home,
    };
    if !found.contains_key(&key) {
        found.insert(key, method.sig)?;
    }
    Ok(())
}

/// The methods that were found, in the order of their keys.
fn listed(alloc: Global, found: BTreeMap<MethodKey, Sig>) -> Result<Vec<SetMethod>, AllocError>
    ensures { IfOk result (λ own. own.items ≡ map method_of found.entries) }
{
    let mut own = Vec::new(alloc);
    for (key, sig) in found {
        own.push(SetMethod {
            name: key.name,
            home: key.home,
            sig,
        })?;
    }
    Ok(own)
}
