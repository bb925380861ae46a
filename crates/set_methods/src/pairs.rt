//! Pairs of methods of one key.

ghost use Rattle.std.specs.Prelude.{◌≡◌, ◌++◌, ℕ, List, [], map, IfOk, OnOk};
ghost use Rattle.std.specs.List.{AllByRecursion, flat_map};
ghost use Rattle.interface_nodes.specs.HeldNodes.{method_meant, method_nodes};
ghost use Rattle.set_methods.specs.declared.keys.MethodKey.{MethodKey as Key};
ghost use Rattle.set_methods.specs.Pairs.{pair_meant, pair_nodes, key_of, known, with_first, paired_with};
ghost use Rattle.type_sets.specs.TypeSets.{pairs_among};
ghost use Rattle.type_terms.specs.Arenas.{AllBelow};
ghost use Rattle.type_terms.specs.declared.descriptors.Node.{Node as Descriptor};

use crate::keys::MethodKey;
use indexmap::IndexMap;
use interface_nodes::SetMethod;
use std::alloc::{AllocError, Global};
use type_terms::Sig;

/// Two signatures of one key: that of a method that isn't the first of its key, and that of the first.
#[derive(Debug, Drop)]
pub struct MethodPair {
    pub later: Sig,
    pub first: Sig,
}

/// The pairs among methods, in their order: each that isn't the first of its key, with that first one. It takes time in
/// proportion to the methods.
pub fn pairs_among(alloc: Global, methods: Vec<SetMethod>) -> Result<Vec<MethodPair>, AllocError>
    ensures exact { (nodes : List Descriptor) → IfOk result (λ pairs. map (pair_meant nodes) pairs.items
        ≡ pairs_among [] (map (method_meant nodes) methods.items)) }
    ensures within { (n : ℕ) → AllByRecursion (λ x. AllBelow n (method_nodes x)) methods.items
        → IfOk result (λ pairs. AllBelow n (flat_map pair_nodes pairs.items)) }
{
    let mut firsts = IndexMap::new(alloc);
    let mut pairs = Vec::new(alloc);
    for method in methods {
        meet(&mut firsts, &mut pairs, method)?;
    }
    Ok(pairs)
}

/// Takes in a method. It makes a pair with the first of its key, if there was one.
fn meet(
    firsts: &mut IndexMap<MethodKey, Sig>,
    pairs: &mut Vec<MethodPair>,
    method: SetMethod,
) -> Result<(), AllocError>
    ensures pairs { OnOk result (pairs.new.items
        ≡ pairs.old.items ++ paired_with method.sig (known firsts.old.entries (key_of method))) }
    ensures firsts { OnOk result ((key : Key) → known firsts.new.entries key
        ≡ with_first (known firsts.old.entries) method key) }
{
    let key = MethodKey {
        name: method.name,
        home: method.home,
    };
    if let Some(first) = firsts.get(&key) {
        let first = first.clone()?;
        pairs.push(MethodPair {
            later: method.sig,
            first,
        })?;
        return Ok(());
    }
    firsts.insert(key, method.sig)?;
    Ok(())
}
