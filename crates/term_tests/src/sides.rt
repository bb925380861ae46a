//! The right side of an alias, as it is declared.

ghost use Rattle.std.specs.Prelude.{◌≡◌, ◌⊎◌, List, IfOk};
ghost use Rattle.std.specs.List.{Contains};
ghost use Rattle.environments.specs.Kept.{world, Kept, OpensBehind};
ghost use Rattle.type_terms.specs.declared.descriptors.Node.{Node};
ghost use Rattle.type_terms.specs.Declarations.{decl_nodes, decl_of};
ghost use Rattle.replacement.specs.Calls.{Gives};
ghost use Rattle.type_sets.specs.TermTests.{right_of};
ghost use Rattle.term_tests.specs.Mentions.{declared_right, IsSide};

use environments::Env;
use go_values::QName;
use replacement::SetFault;
use type_terms::{Arena, DeclNode, NodeId};

/// The right side of an alias.
pub(crate) fn right_side<'a, E: Env<'a>>(
    env: &mut E,
    arena: &mut Arena,
    q: &QName,
) -> Result<NodeId, SetFault>
    requires stands { E.stands env.old arena.old.nodes }
    ensures exact { Gives (OpensBehind (E.entries env.old arena.old.nodes) (λ name. name ≡ q.now))
        arena.old arena.new (E.full env.new) result (declared_right (E.entries env.old arena.old.nodes) q.now) }
    ensures kept { Kept (λ name. name ≡ q.now)
        (OpensBehind (E.entries env.old arena.old.nodes) (λ name. name ≡ q.now))
        (world (E.entries env.old arena.old.nodes) (E.names env.old) (E.packages env.old) (E.asked env.old))
        (world (E.entries env.new arena.new.nodes) (E.names env.new) (E.packages env.new) (E.asked env.new))
        arena.old arena.new }
    ensures stands_after { E.stands env.new arena.new.nodes }
{
    match env.declare(q, arena) {
        Ok(given) => alias_side(given.decl(), q),
        Err(fault) => Err(SetFault::Env(fault)),
    }
}

/// The right side of a declaration, which has to be an alias.
fn alias_side(decl: &DeclNode, q: &QName) -> Result<NodeId, SetFault>
    ensures exact { (nodes : List Node) → IsSide nodes result (right_of q.now (decl_of nodes decl.now)) }
    ensures within { IfOk result (λ id. Contains (decl_nodes decl.now) id) }
{
    match decl {
        DeclNode::Alias { ty, .. } => Ok(*ty),
        DeclNode::Var { .. }
        | DeclNode::Func { .. }
        | DeclNode::Constant { .. }
        | DeclNode::Defined { .. }
        | DeclNode::Parameter { .. } => Err(wrong_kind(q)),
    }
}

/// That the name's declaration is of another kind, or that there was no memory to say so.
fn wrong_kind(q: &QName) -> SetFault
    ensures { (result ≡ SetFault.Kind q.now) ⊎ (result ≡ SetFault.OutOfMemory) }
{
    match q.clone() {
        Ok(q) => SetFault::Kind { q },
        Err(_) => SetFault::OutOfMemory,
    }
}
