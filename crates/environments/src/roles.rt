ghost use Rattle.std.specs.Prelude.{◌≡◌, ◌↔◌, List, Some, IsTrue};
ghost use Rattle.type_terms.specs.declared.descriptors.Node.{Node};
ghost use Rattle.type_terms.specs.Declarations.{decl_of};
ghost use Rattle.environments.specs.Roles.{defined_role, alias_role, role_of};

use crate::mentions::Role;
use type_terms::DeclNode;

/// The one role in which the name of a declaration may be used; none for a variable, a function or a constant.
#[tactic(auto, using(crate::proofs::RoleLemmas::counts_stay))]
pub fn role_of(decl: &DeclNode) -> Option<Role>
    ensures { (nodes : List Node) → result ≡ role_of (decl_of nodes decl.now) }
{
    match decl {
        DeclNode::Var { .. } | DeclNode::Func { .. } | DeclNode::Constant { .. } => None,
        DeclNode::Defined { tparams, .. } => Some(defined_role(tparams.items().len())),
        DeclNode::Alias { tparams, .. } => Some(alias_role(tparams.items().len())),
        DeclNode::Parameter { .. } => Some(Role::Parameter),
    }
}

/// Whether the name of a declaration may be used in a role.
pub fn meets_role(decl: &DeclNode, role: Role) -> bool
    ensures { (nodes : List Node) → IsTrue result ↔ (role_of (decl_of nodes decl.now) ≡ Some role) }
{
    match role_of(decl) {
        Some(own) => own == role,
        None => false,
    }
}

fn defined_role(count: usize) -> Role
    ensures { result ≡ defined_role count }
{
    if count == 0 {
        Role::Defined
    } else {
        Role::DefinedBase(count)
    }
}

fn alias_role(count: usize) -> Role
    ensures { result ≡ alias_role count }
{
    if count == 0 {
        Role::Alias
    } else {
        Role::AliasBase(count)
    }
}
