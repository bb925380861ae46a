ghost use Rattle.std.specs.Prelude.{◌≡◌};
ghost use Rattle.source_trees.specs.Files.{repeated};

use go_syntax::{ConstSpec, Top};

/// The specification whose type and values the constants have that are the declaration of this number: their own, or
/// the last of their group before it that has values.
pub fn repeated<'a>(tops: &'a [Top], number: usize, constants: &'a ConstSpec) -> &'a ConstSpec
    ensures { result.now ≡ repeated tops.now number constants.now }
{
    let back = constants.iota.saturating_sub(constants.source);
    match tops.get(number.saturating_sub(back)) {
        Some(Top::Constant(found)) => found,
        _ => constants,
    }
}
