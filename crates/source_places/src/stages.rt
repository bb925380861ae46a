ghost use Rattle.std.specs.Prelude.{◌≡◌, List, Err};
ghost use Rattle.source_places.specs.declared.places.Found.{Found};
ghost use Rattle.source_places.specs.declared.stages.StageError.TheVariants.{Failed};
ghost use Rattle.source_places.specs.Places.{least};
ghost use Rattle.source_places.specs.Stages.{IsStage};

use crate::places::Found;

/// Why a package is refused: the code of the rule that is broken, the place and the cause.
#[derive(Debug, Drop)]
pub struct Refusal<K, C> {
    pub code: K,
    pub found: Found<C>,
}

/// Why looking for a code doesn't go on: the code has a place, or something else failed.
#[derive(Debug, Drop)]
pub enum StageError<K, C, E> {
    Refused(Refusal<K, C>),
    Failed(E),
}

/// Goes on where a code has no place, and else refuses at the first one, which is given.
pub fn settle<K: Drop, C, E>(code: K, first: Option<Found<C>>) -> Result<(), StageError<K, C, E>>
    ensures stage { (places : K → List (Found C)) → first ≡ least (places code) → IsStage places code result }
    ensures never_fails { (failure : E) → result ≡ Err (Failed failure) → ⊥ }
{
    match first {
        None => Ok(()),
        Some(found) => Err(StageError::Refused(Refusal { code, found })),
    }
}
