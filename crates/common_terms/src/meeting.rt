//! Terms in common.

ghost use Rattle.std.specs.Prelude.{◌≡◌, ◌<◌, ℕ, [], length, IfOk, IfSome, OnOk};
ghost use Rattle.common_terms.specs.Calls.{AllWithin, GivesCommon, GivesFound, GivesTerms};
ghost use Rattle.common_terms.specs.Comparing.{term_meant, terms_meant, compared, AtCommon, AtOne, AtLists};
ghost use Rattle.environments.specs.Kept.{world, Kept};
ghost use Rattle.interface_opening.specs.Terms.{common, meet_one, meet_lists};
ghost use Rattle.type_sets.specs.TypeSets.{same_term};
ghost use Rattle.type_terms.specs.Arenas.{IsArena};
ghost use Rattle.type_terms.specs.Denotation.{tree};

use crate::covering::Covering;
use environments::Env;
use indexmap::IndexSet;
use replacement::SetFault;
use std::alloc::{AllocError, Global};
use type_terms::{Arena, Term};

/// The terms that two lists have in common, in their order, each once: of each two terms, one of each list, the one
/// that the other covers, and the first where each covers the other. The first fault of a comparison ends it. Each term
/// of the first list is compared with all of the second.
pub fn common_terms<'a, E: Env<'a>, C: Covering<'a, E>>(
    alloc: Global,
    env: &mut E,
    arena: &mut Arena,
    covering: &C,
    xs: &[Term],
    ys: &[Term],
) -> Result<Vec<Term>, SetFault>
    requires stands { E.stands env.old arena.old.nodes }
    requires first { AllWithin (length arena.old.nodes) xs.now }
    requires second { AllWithin (length arena.old.nodes) ys.now }
    ensures exact { GivesTerms
        (AtLists same_term (C.covered (E.entries env.old arena.old.nodes) (E.names env.old))
        (C.opens (E.entries env.old arena.old.nodes) (E.names env.old))
        (terms_meant arena.old.nodes xs.now) (terms_meant arena.old.nodes ys.now) [])
        arena.old (E.full env.new) result
        (meet_lists same_term (C.covered (E.entries env.old arena.old.nodes) (E.names env.old))
        (terms_meant arena.old.nodes xs.now) (terms_meant arena.old.nodes ys.now) []) }
    ensures within { (n : ℕ) → AllWithin n xs.now → AllWithin n ys.now
        → IfOk result (λ terms. AllWithin n terms.items) }
    ensures kept { Kept
        (AtLists same_term (C.covered (E.entries env.old arena.old.nodes) (E.names env.old))
        (C.asks (E.entries env.old arena.old.nodes) (E.names env.old)) (terms_meant arena.old.nodes xs.now)
        (terms_meant arena.old.nodes ys.now) [])
        (AtLists same_term (C.covered (E.entries env.old arena.old.nodes) (E.names env.old))
        (C.opens (E.entries env.old arena.old.nodes) (E.names env.old)) (terms_meant arena.old.nodes xs.now)
        (terms_meant arena.old.nodes ys.now) [])
        (world (E.entries env.old arena.old.nodes) (E.names env.old) (E.packages env.old) (E.asked env.old))
        (world (E.entries env.new arena.new.nodes) (E.names env.new) (E.packages env.new) (E.asked env.new))
        arena.old arena.new }
    ensures stands_after { E.stands env.new arena.new.nodes }
{
    let mut found = IndexSet::new(alloc);
    meet_lists(alloc, env, arena, covering, xs, ys, &mut found)?;
    match listed(alloc, found) {
        Ok(terms) => Ok(terms),
        Err(_) => Err(SetFault::OutOfMemory),
    }
}

/// Terms, in their order.
fn listed(alloc: Global, found: IndexSet<Term>) -> Result<Vec<Term>, AllocError>
    ensures { IfOk result (λ terms. terms.items ≡ found.keys) }
{
    let mut terms = Vec::new(alloc);
    for term in found {
        terms.push(term)?;
    }
    Ok(terms)
}

/// Adds what each term of the first list has in common with those of the second.
fn meet_lists<'a, E: Env<'a>, C: Covering<'a, E>>(
    alloc: Global,
    env: &mut E,
    arena: &mut Arena,
    covering: &C,
    xs: &[Term],
    ys: &[Term],
    found: &mut IndexSet<Term>,
) -> Result<(), SetFault>
    requires stands { E.stands env.old arena.old.nodes }
    requires first { AllWithin (length arena.old.nodes) xs.now }
    requires second { AllWithin (length arena.old.nodes) ys.now }
    requires found { AllWithin (length arena.old.nodes) found.old.keys }
    ensures exact { GivesFound
        (AtLists same_term (C.covered (E.entries env.old arena.old.nodes) (E.names env.old))
        (C.opens (E.entries env.old arena.old.nodes) (E.names env.old))
        (terms_meant arena.old.nodes xs.now) (terms_meant arena.old.nodes ys.now)
        (terms_meant arena.old.nodes found.old.keys))
        arena.old (E.full env.new) result found.new.keys
        (meet_lists same_term (C.covered (E.entries env.old arena.old.nodes) (E.names env.old))
        (terms_meant arena.old.nodes xs.now) (terms_meant arena.old.nodes ys.now)
        (terms_meant arena.old.nodes found.old.keys)) }
    ensures within { (n : ℕ) → AllWithin n xs.now → AllWithin n ys.now → AllWithin n found.old.keys
        → OnOk result (AllWithin n found.new.keys) }
    ensures kept { Kept
        (AtLists same_term (C.covered (E.entries env.old arena.old.nodes) (E.names env.old))
        (C.asks (E.entries env.old arena.old.nodes) (E.names env.old)) (terms_meant arena.old.nodes xs.now)
        (terms_meant arena.old.nodes ys.now) (terms_meant arena.old.nodes found.old.keys))
        (AtLists same_term (C.covered (E.entries env.old arena.old.nodes) (E.names env.old))
        (C.opens (E.entries env.old arena.old.nodes) (E.names env.old)) (terms_meant arena.old.nodes xs.now)
        (terms_meant arena.old.nodes ys.now) (terms_meant arena.old.nodes found.old.keys))
        (world (E.entries env.old arena.old.nodes) (E.names env.old) (E.packages env.old) (E.asked env.old))
        (world (E.entries env.new arena.new.nodes) (E.names env.new) (E.packages env.new) (E.asked env.new))
        arena.old arena.new }
    ensures stands_after { E.stands env.new arena.new.nodes }
{
    for x in xs {
        meet_one(alloc, env, arena, covering, x, ys, found)?;
    }
    Ok(())
}

/// Adds what a term has in common with those of a list.
fn meet_one<'a, E: Env<'a>, C: Covering<'a, E>>(
    alloc: Global,
    env: &mut E,
    arena: &mut Arena,
    covering: &C,
    x: &Term,
    ys: &[Term],
    found: &mut IndexSet<Term>,
) -> Result<(), SetFault>
    requires stands { E.stands env.old arena.old.nodes }
    requires first { x.now.ty < length arena.old.nodes }
    requires second { AllWithin (length arena.old.nodes) ys.now }
    requires found { AllWithin (length arena.old.nodes) found.old.keys }
    ensures exact { GivesFound
        (AtOne same_term (C.covered (E.entries env.old arena.old.nodes) (E.names env.old))
        (C.opens (E.entries env.old arena.old.nodes) (E.names env.old))
        (term_meant arena.old.nodes x.now) (terms_meant arena.old.nodes ys.now)
        (terms_meant arena.old.nodes found.old.keys))
        arena.old (E.full env.new) result found.new.keys
        (meet_one same_term (C.covered (E.entries env.old arena.old.nodes) (E.names env.old))
        (term_meant arena.old.nodes x.now) (terms_meant arena.old.nodes ys.now)
        (terms_meant arena.old.nodes found.old.keys)) }
    ensures within { (n : ℕ) → x.now.ty < n → AllWithin n ys.now → AllWithin n found.old.keys
        → OnOk result (AllWithin n found.new.keys) }
    ensures kept { Kept
        (AtOne same_term (C.covered (E.entries env.old arena.old.nodes) (E.names env.old))
        (C.asks (E.entries env.old arena.old.nodes) (E.names env.old)) (term_meant arena.old.nodes x.now)
        (terms_meant arena.old.nodes ys.now) (terms_meant arena.old.nodes found.old.keys))
        (AtOne same_term (C.covered (E.entries env.old arena.old.nodes) (E.names env.old))
        (C.opens (E.entries env.old arena.old.nodes) (E.names env.old)) (term_meant arena.old.nodes x.now)
        (terms_meant arena.old.nodes ys.now) (terms_meant arena.old.nodes found.old.keys))
        (world (E.entries env.old arena.old.nodes) (E.names env.old) (E.packages env.old) (E.asked env.old))
        (world (E.entries env.new arena.new.nodes) (E.names env.new) (E.packages env.new) (E.asked env.new))
        arena.old arena.new }
    ensures stands_after { E.stands env.new arena.new.nodes }
{
    for y in ys {
        meet(alloc, env, arena, covering, x, y, found)?;
    }
    Ok(())
}

/// Adds what two terms have in common.
fn meet<'a, E: Env<'a>, C: Covering<'a, E>>(
    alloc: Global,
    env: &mut E,
    arena: &mut Arena,
    covering: &C,
    x: &Term,
    y: &Term,
    found: &mut IndexSet<Term>,
) -> Result<(), SetFault>
    requires stands { E.stands env.old arena.old.nodes }
    requires first { x.now.ty < length arena.old.nodes }
    requires second { y.now.ty < length arena.old.nodes }
    requires found { AllWithin (length arena.old.nodes) found.old.keys }
    ensures exact { GivesFound
        (AtCommon same_term (C.covered (E.entries env.old arena.old.nodes) (E.names env.old))
        (C.opens (E.entries env.old arena.old.nodes) (E.names env.old)) (term_meant arena.old.nodes x.now)
        (term_meant arena.old.nodes y.now))
        arena.old (E.full env.new) result found.new.keys
        (compared same_term (C.covered (E.entries env.old arena.old.nodes) (E.names env.old))
        (term_meant arena.old.nodes x.now) (term_meant arena.old.nodes y.now)
        (terms_meant arena.old.nodes found.old.keys)) }
    ensures within { (n : ℕ) → x.now.ty < n → y.now.ty < n → AllWithin n found.old.keys
        → OnOk result (AllWithin n found.new.keys) }
    ensures kept { Kept
        (AtCommon same_term (C.covered (E.entries env.old arena.old.nodes) (E.names env.old))
        (C.asks (E.entries env.old arena.old.nodes) (E.names env.old)) (term_meant arena.old.nodes x.now)
        (term_meant arena.old.nodes y.now))
        (AtCommon same_term (C.covered (E.entries env.old arena.old.nodes) (E.names env.old))
        (C.opens (E.entries env.old arena.old.nodes) (E.names env.old)) (term_meant arena.old.nodes x.now)
        (term_meant arena.old.nodes y.now))
        (world (E.entries env.old arena.old.nodes) (E.names env.old) (E.packages env.old) (E.asked env.old))
        (world (E.entries env.new arena.new.nodes) (E.names env.new) (E.packages env.new) (E.asked env.new))
        arena.old arena.new }
    ensures stands_after { E.stands env.new arena.new.nodes }
{
    told_apart(arena);
    let Some(z) = common(alloc, env, arena, covering, x, y)? else {
        return Ok(());
    };
    match found.insert(z) {
        Ok(_) => Ok(()),
        Err(_) => Err(SetFault::OutOfMemory),
    }
}

/// That two nodes of an arena are the same where they denote the same type.
fn told_apart(arena: &Arena)
    ensures { IsArena arena.now.nodes }
{
    let _count = arena.len();
}

/// What two terms have in common: the one that the other covers, the first where each covers the other.
fn common<'a, E: Env<'a>, C: Covering<'a, E>>(
    alloc: Global,
    env: &mut E,
    arena: &mut Arena,
    covering: &C,
    x: &Term,
    y: &Term,
) -> Result<Option<Term>, SetFault>
    requires stands { E.stands env.old arena.old.nodes }
    requires first { x.now.ty < length arena.old.nodes }
    requires second { y.now.ty < length arena.old.nodes }
    ensures exact { GivesCommon
        (AtCommon same_term (C.covered (E.entries env.old arena.old.nodes) (E.names env.old))
        (C.opens (E.entries env.old arena.old.nodes) (E.names env.old)) (term_meant arena.old.nodes x.now)
        (term_meant arena.old.nodes y.now))
        arena.old (E.full env.new) result
        (common same_term (C.covered (E.entries env.old arena.old.nodes) (E.names env.old))
        (term_meant arena.old.nodes x.now) (term_meant arena.old.nodes y.now)) }
    ensures within { (n : ℕ) → x.now.ty < n → y.now.ty < n → IfOk result (λ z. IfSome z (λ t. t.ty < n)) }
    ensures kept { Kept
        (AtCommon same_term (C.covered (E.entries env.old arena.old.nodes) (E.names env.old))
        (C.asks (E.entries env.old arena.old.nodes) (E.names env.old)) (term_meant arena.old.nodes x.now)
        (term_meant arena.old.nodes y.now))
        (AtCommon same_term (C.covered (E.entries env.old arena.old.nodes) (E.names env.old))
        (C.opens (E.entries env.old arena.old.nodes) (E.names env.old)) (term_meant arena.old.nodes x.now)
        (term_meant arena.old.nodes y.now))
        (world (E.entries env.old arena.old.nodes) (E.names env.old) (E.packages env.old) (E.asked env.old))
        (world (E.entries env.new arena.new.nodes) (E.names env.new) (E.packages env.new) (E.asked env.new))
        arena.old arena.new }
    ensures stands_after { E.stands env.new arena.new.nodes }
{
    if covering.covers(alloc, env, arena, x, y)? {
        return Ok(Some(*x));
    }
    if covering.covers(alloc, env, arena, y, x)? {
        return Ok(Some(*y));
    }
    Ok(None)
}
