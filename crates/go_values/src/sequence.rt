ghost use Rattle.std.specs.Prelude.{◌≡◌, List};
ghost use Rattle.std.specs.Coded.{coded_list};
ghost use Rattle.std.specs.List.{AllZip};
ghost use Rattle.std.specs.Cmp.Lexicographic.{pointwise};
ghost use Rattle.std.specs.Cmp.Rules.{comparing};
ghost use Rattle.std.proofs.Common.{rules};

use std::alloc::AllocError;
use std::hash::{Hash, Hasher};
use std::marker::Model;

/// A list that doesn't change. A contract sees the list of the items. The empty one takes no memory.
#[derive(Debug, Drop)]
pub struct Sequence<T> {
    vector: Vec<T>,
}

impl<T> Model for Sequence<T> {
    ghost Value = { List T };

    ghost coded = { coded_list T.code };

    ghost view = { λ sequence. sequence.vector.items };
}

impl<T> Sequence<T> {
    /// The list of these items. Takes no memory.
    pub fn from_items(items: Vec<T>) -> Sequence<T>
        ensures { result ≡ items.items }
    {
        Sequence { vector: items }
    }

    /// Lends the items. Takes no memory.
    pub fn items(&self) -> &[T]
        ensures { result.now ≡ self.now }
    {
        self.vector.as_slice()
    }
}

impl<T: PartialEq> PartialEq for Sequence<T> {
    ghost eq = { pointwise T.eq };

    ghost laws = { Prim.search (comparing, rules) };

    fn eq(&self, other: &Sequence<T>) -> bool {
        self.vector == other.vector
    }
}

impl<T: Eq> Eq for Sequence<T> {
    ghost laws = { Prim.search (comparing, rules) };
}

impl<T: Hash> Hash for Sequence<T> {
    ghost use Rattle.std.specs.Hash as fed;
    ghost use Rattle.std.specs.Hash.{items_Alike};

    ghost hash_input = { fed.slice T.hash_input };

    ghost respects_eq = { (items_Alike (record { fed = T.respects_eq })).fed };

    fn hash<H: Hasher>(&self, state: &mut H) {
        self.vector.hash(state);
    }
}

impl<T: Clone> Clone for Sequence<T> {
    ghost is_clone = { AllZip T.is_clone };

    fn clone(&self) -> Result<Sequence<T>, AllocError> {
        Ok(Sequence {
            vector: self.vector.clone()?,
        })
    }
}
