//! What is found in many declarations.

ghost use Rattle.std.specs.Prelude.{◌≡◌, ◌<◌, ℕ, List, length, map, IfOk, OnOk, OnErr};
ghost use Rattle.std.specs.List.{flat_map};
ghost use Rattle.type_terms.specs.declared.descriptors.Node.{Node};
ghost use Rattle.type_terms.specs.Arenas.{AllBelow};
ghost use Rattle.type_terms.specs.Declarations.{decl_nodes, decl_of};
ghost use Rattle.type_terms.specs.Denotation.{tree};
ghost use Rattle.environments.specs.References.{tree_references};
ghost use Rattle.dangling_references.specs.Dangling.{Entries};
ghost use Rattle.dangling_types.specs.FirstDangling.{first_dangling, dangling_in};
ghost use Rattle.dangling_types.specs.NodeReferences.{Finds};
ghost use Rattle.dangling_types.specs.Findings.{IsKnown, IsRight, AreRight, HasChildren};
ghost use Rattle.dangling_types.specs.Searching.{Notes};

use crate::finding::Finding;
use crate::looking::{Known, finding_for, look};
use crate::reaching::wanted;
use crate::roles::Roles;
use indexmap::IndexMap;
use std::alloc::{AllocError, Global};
use std::marker::Model;
use type_terms::{Arena, DeclNode, NodeId, push_decl};

/// What was found in the types of an arena, so that each is looked at once. A contract sees what was found for which
/// nodes. All of its calls are given one arena and the same roles.
#[derive(Drop)]
pub struct Findings {
    known: Known,
}

impl Model for Findings {
    ghost use Rattle.dangling_types.specs.Findings.{Known as Found};

    ghost Value = { Found };

    ghost view = { λ findings. findings.known.entries };
}

impl Findings {
    /// Nothing was found. Takes no memory.
    pub fn new(alloc: Global) -> Findings
        ensures { (entries : Entries) (nodes : List Node) → AreRight entries nodes result }
    {
        Findings {
            known: IndexMap::new(alloc),
        }
    }

    /// The first reference of a declaration that dangles, in reading order, by the node that makes it; or that none
    /// does. Takes time for those nodes of its types that weren't met in an earlier call, and for their uses, however
    /// deep types nest.
    pub fn look_at<R: Roles>(
        &mut self,
        alloc: Global,
        arena: &Arena,
        roles: &R,
        decl: &DeclNode,
    ) -> Result<Finding, AllocError>
        requires stands { R.stands roles.now }
        requires there { AllBelow (length arena.now.nodes) (decl_nodes decl.now) }
        requires right { AreRight (R.entries roles.now) arena.now.nodes self.old }
        ensures first { IfOk result (λ finding. Finds arena.now.nodes finding
            (dangling_in (R.entries roles.now) (decl_of arena.now.nodes decl.now))) }
        ensures right { AreRight (R.entries roles.now) arena.now.nodes self.new }
    {
        let mut types = Vec::new(alloc);
        push_decl(decl, &mut types)?;
        look_at_all(alloc, arena, roles, &mut self.known, &types)
    }
}

/// What is found in some types, one after the other.
fn look_at_all<R: Roles>(
    alloc: Global,
    arena: &Arena,
    roles: &R,
    known: &mut Known,
    types: &[NodeId],
) -> Result<Finding, AllocError>
    requires stands { R.stands roles.now }
    requires there { AllBelow (length arena.now.nodes) types.now }
    requires right { AreRight (R.entries roles.now) arena.now.nodes known.old.entries }
    ensures first { IfOk result (λ finding. Finds arena.now.nodes finding
        (first_dangling (R.entries roles.now) (flat_map tree_references (map (tree arena.now.nodes) types.now)))) }
    ensures right { AreRight (R.entries roles.now) arena.now.nodes known.new.entries }
{
    for id in types {
        match look_at_type(alloc, arena, roles, known, *id)? {
            Finding::Sound => {}
            Finding::Dangles(at) => return Ok(Finding::Dangles(at)),
        }
    }
    Ok(Finding::Sound)
}

/// What is found in a type: it is known, or becomes known behind its parts.
fn look_at_type<R: Roles>(
    alloc: Global,
    arena: &Arena,
    roles: &R,
    known: &mut Known,
    id: NodeId,
) -> Result<Finding, AllocError>
    requires stands { R.stands roles.now }
    requires there { id < length arena.now.nodes }
    requires right { AreRight (R.entries roles.now) arena.now.nodes known.old.entries }
    ensures first { IfOk result (IsRight (R.entries roles.now) arena.now.nodes id) }
    ensures right { AreRight (R.entries roles.now) arena.now.nodes known.new.entries }
{
    let mut left = wanted(alloc, arena, known, id)?;
    while let Some(next) = left.pop() {
        come_to_know(alloc, arena, roles, known, next)?;
    }
    Ok(finding_for(known, id))
}

/// Notes what is found in the type of a node, where its parts are known.
fn come_to_know<R: Roles>(
    alloc: Global,
    arena: &Arena,
    roles: &R,
    known: &mut Known,
    id: NodeId,
) -> Result<(), AllocError>
    requires stands { R.stands roles.now }
    requires there { id < length arena.now.nodes }
    requires right { AreRight (R.entries roles.now) arena.now.nodes known.old.entries }
    requires children { HasChildren arena.now.nodes known.old.entries id }
    ensures right { AreRight (R.entries roles.now) arena.now.nodes known.new.entries }
    ensures kept { (other : ℕ) → IsKnown known.old.entries other → IsKnown known.new.entries other }
    ensures known { OnOk result (IsKnown known.new.entries id) }
{
    let finding = look(alloc, arena, roles, known, id)?;
    note(known, id, finding)
}

fn note(known: &mut Known, id: NodeId, finding: Finding) -> Result<(), AllocError>
    ensures noted { OnOk result (Notes known.old.entries known.new.entries id finding) }
    ensures refused { OnErr result (known.new.entries ≡ known.old.entries) }
{
    known.insert(id, finding)?;
    Ok(())
}
