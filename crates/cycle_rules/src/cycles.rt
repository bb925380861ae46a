//! Whether declarations lie on a forbidden cycle.

ghost use Rattle.std.specs.Prelude.{◌≡◌, ◌≢◌, ℕ, ◌<◌, ◌≤◌, ◌^◌, List, length, IfOk, OnOk, Err, IfSome, IfNone, Some};
ghost use Rattle.std.specs.Prelude.{IsTrue, IsFalse, slice_get, map};
ghost use Rattle.cycle_rules.specs.Paths.{Arrow, IsGraph};
ghost use Rattle.cycle_rules.specs.Forms.{Owns, parameter};
ghost use Rattle.cycle_rules.specs.Cycles.{targets_of, IsEdge, IsCyclic, IsFirstKind, AreFirstKinds, IsFirstCycle};
ghost use Rattle.cycle_rules.specs.Cycles.{AreShapes, rank_in, HasRanks, IsRanked, AreRanked};

use crate::components::{component_ranks, on_cycles};
use crate::containment::contained_in;
use crate::shapes::DeclShape;
use std::alloc::{AllocError, Global};

/// The kinds of cycle that Go forbids.
#[derive(Clone, Copy, Debug, PartialEq, Eq)]
pub enum CycleKind {
    /// A type contains itself.
    Contains,
    /// An interface embeds itself.
    Embeds,
    /// An alias mentions itself through aliases alone.
    OfAlias,
    /// A type parameter list refers to its own type through such lists.
    Constraint,
    /// A constant's value needs itself.
    Value,
}

/// Why declarations have no ranks.
#[derive(Clone, Copy, Debug, PartialEq, Eq)]
pub enum CycleFault {
    /// The first declaration that lies on a cycle, and the first kind of which it lies on one.
    Found { kind: CycleKind, item: u32 },
    OutOfMemory,
}

impl From<AllocError> for CycleFault {
    ghost use Rattle.cycle_rules.specs.declared.cycles.CycleFault.TheVariants.{OutOfMemory};

    ghost from_gives = { λ _ e. e ≡ OutOfMemory };

    fn from(_: AllocError) -> CycleFault {
        CycleFault::OutOfMemory
    }
}

/// For each kind of cycle and each declaration a rank, such that each edge of the kind leads to a smaller one.
#[derive(Debug, Drop)]
pub struct Ranks {
    contains: Vec<u64>,
    embeds: Vec<u64>,
    aliases: Vec<u64>,
    constraints: Vec<u64>,
    values: Vec<u64>,
}

impl Ranks {
    /// The rank of the declaration at this place of the list.
    pub fn rank_of(&self, kind: CycleKind, item: u32) -> u64
        requires { (count : ℕ) × HasRanks self.now count × (item < count) }
        ensures { result ≡ rank_in self.now kind item }
    {
        match kind {
            CycleKind::Contains => self.contains[item as usize],
            CycleKind::Embeds => self.embeds[item as usize],
            CycleKind::OfAlias => self.aliases[item as usize],
            CycleKind::Constraint => self.constraints[item as usize],
            CycleKind::Value => self.values[item as usize],
        }
    }
}

/// What was found of the edges of one kind: the ranks of the declarations, and which of them lie on a cycle.
#[derive(Drop)]
struct Ranked {
    ranks: Vec<u64>,
    cyclic: Vec<bool>,
}

/// Ranks the nodes of a graph, and finds those that lie on a cycle.
fn rank_graph(alloc: Global, graph: &[&[u32]]) -> Result<Ranked, AllocError>
    requires size { length graph.now < 2 ^ 32 }
    requires graph { IsGraph (map (λ t. t.now) graph.now) }
    ensures { IfOk result (IsRanked (Arrow (map (λ t. t.now) graph.now)) (length graph.now)) }
{
    let ranks = component_ranks(alloc, graph)?;
    let cyclic = on_cycles(alloc, graph, &ranks)?;
    Ok(Ranked { ranks, cyclic })
}

/// The declarations that a declaration lists for this kind.
fn targets(shape: &DeclShape, kind: CycleKind) -> &[u32]
    ensures { result.now ≡ targets_of kind shape.now }
{
    match kind {
        CycleKind::Contains => &[],
        CycleKind::Embeds => &shape.embeds,
        CycleKind::OfAlias => &shape.aliases,
        CycleKind::Constraint => &shape.constraints,
        CycleKind::Value => &shape.values,
    }
}

/// What the declarations list for this kind.
fn listed(alloc: Global, shapes: &[DeclShape], kind: CycleKind) -> Result<Vec<&[u32]>, AllocError>
    ensures { IfOk result (λ graph. map (λ t. t.now) graph.items ≡ map (targets_of kind) shapes.now) }
{
    let mut graph = Vec::with_capacity(alloc, shapes.len())?;
    for shape in shapes {
        graph.push(targets(shape, kind))?;
    }
    Ok(graph)
}

/// Lends each row.
fn lent(alloc: Global, rows: &[Vec<u32>]) -> Result<Vec<&[u32]>, AllocError>
    ensures { IfOk result (λ graph. map (λ t. t.now) graph.items ≡ map (λ row. row.items) rows.now) }
{
    let mut graph = Vec::with_capacity(alloc, rows.len())?;
    for row in rows {
        graph.push(row.as_slice())?;
    }
    Ok(graph)
}

/// Ranks the declarations by what they list for this kind.
fn rank_listed(alloc: Global, shapes: &[DeclShape], kind: CycleKind) -> Result<Ranked, AllocError>
    requires size { length shapes.now < 2 ^ 32 }
    requires shapes { AreShapes shapes.now }
    requires kind { kind ≢ CycleKind.Contains }
    ensures { IfOk result (IsRanked (IsEdge shapes.now kind) (length shapes.now)) }
{
    let graph = listed(alloc, shapes, kind)?;
    rank_graph(alloc, &graph)
}

/// Ranks the declarations by what they contain.
fn rank_contained(alloc: Global, shapes: &[DeclShape]) -> Result<Ranked, AllocError>
    requires size { length shapes.now < 2 ^ 32 }
    requires shapes { AreShapes shapes.now }
    ensures { IfOk result (IsRanked (IsEdge shapes.now CycleKind.Contains) (length shapes.now)) }
{
    let contained = contained_in(alloc, shapes)?;
    let graph = lent(alloc, &contained)?;
    rank_graph(alloc, &graph)
}

/// What was found of each kind.
#[derive(Drop)]
struct Graphs<'a> {
    shapes: &'a [DeclShape],
    contains: Ranked,
    embeds: Ranked,
    aliases: Ranked,
    constraints: Ranked,
    values: Ranked,
}

/// Ranks the declarations by each kind.
fn rank_all<'a>(alloc: Global, shapes: &'a [DeclShape]) -> Result<Graphs<'a>, AllocError>
    requires size { length shapes.now < 2 ^ 32 }
    requires shapes { AreShapes shapes.now }
    ensures same { IfOk result (λ graphs. graphs.shapes.now ≡ shapes.now) }
    ensures ranked { IfOk result AreRanked }
{
    Ok(Graphs {
        shapes,
        contains: rank_contained(alloc, shapes)?,
        embeds: rank_listed(alloc, shapes, CycleKind::Embeds)?,
        aliases: rank_listed(alloc, shapes, CycleKind::OfAlias)?,
        constraints: rank_listed(alloc, shapes, CycleKind::Constraint)?,
        values: rank_listed(alloc, shapes, CycleKind::Value)?,
    })
}

impl Graphs<'_> {
    /// What was found of this kind.
    fn of(&self, kind: CycleKind) -> &Ranked
        requires { AreRanked self.now }
        ensures { IsRanked (IsEdge self.now.shapes.now kind) (length self.now.shapes.now) result.now }
    {
        match kind {
            CycleKind::Contains => &self.contains,
            CycleKind::Embeds => &self.embeds,
            CycleKind::OfAlias => &self.aliases,
            CycleKind::Constraint => &self.constraints,
            CycleKind::Value => &self.values,
        }
    }

    /// Whether a declaration lies on a cycle of this kind.
    fn is_cyclic(&self, kind: CycleKind, item: u32) -> bool
        requires ranked { AreRanked self.now }
        requires there { item < length self.now.shapes.now }
        ensures yes { IsTrue result → IsCyclic self.now.shapes.now kind item }
        ensures no { IsFalse result → IsCyclic self.now.shapes.now kind item → ⊥ }
    {
        self.of(kind).cyclic[item as usize]
    }

    /// The first kind of which a declaration lies on a cycle, if it lies on one.
    fn kind_of(&self, item: u32) -> Option<CycleKind>
        requires ranked { AreRanked self.now }
        requires there { item < length self.now.shapes.now }
        ensures { IsFirstKind self.now.shapes.now item result }
    {
        if self.is_cyclic(CycleKind::Contains, item) {
            Some(CycleKind::Contains)
        } else if self.is_cyclic(CycleKind::Embeds, item) {
            Some(CycleKind::Embeds)
        } else if self.is_cyclic(CycleKind::OfAlias, item) {
            Some(CycleKind::OfAlias)
        } else if self.is_cyclic(CycleKind::Constraint, item) {
            Some(CycleKind::Constraint)
        } else if self.is_cyclic(CycleKind::Value, item) {
            Some(CycleKind::Value)
        } else {
            None
        }
    }

    /// The first declaration that lies on a cycle, and the first kind of which it lies on one.
    fn first(&self) -> Option<(CycleKind, u32)>
        requires size { length self.now.shapes.now < 2 ^ 32 }
        requires ranked { AreRanked self.now }
        ensures found { IfSome result (λ cycle. IsFirstCycle self.now.shapes.now cycle.0 cycle.1) }
        ensures none { IfNone result ((kind : CycleKind) (s : ℕ) → IsCyclic self.now.shapes.now kind s → ⊥) }
    {
        for item in 0..self.shapes.len() as u32 {
            if let Some(kind) = self.kind_of(item) {
                return Some((kind, item));
            }
        }
        None
    }

    /// For each declaration the first kind of which it lies on a cycle, if it lies on one.
    fn kinds(&self, alloc: Global) -> Result<Vec<Option<CycleKind>>, AllocError>
        requires size { length self.now.shapes.now < 2 ^ 32 }
        requires ranked { AreRanked self.now }
        ensures { IfOk result (λ kinds. AreFirstKinds self.now.shapes.now (length self.now.shapes.now) kinds.items) }
    {
        let mut kinds = Vec::with_capacity(alloc, self.shapes.len())?;
        for item in 0..self.shapes.len() as u32 {
            kinds.push(self.kind_of(item))?;
        }
        Ok(kinds)
    }

    /// The ranks, where nothing lies on a cycle.
    fn into_ranks(self) -> Ranks
        requires ranked { AreRanked self }
        requires acyclic { (kind : CycleKind) (s : ℕ) → IsCyclic self.shapes.now kind s → ⊥ }
        ensures ranks { (kind : CycleKind) (s t : ℕ) → IsEdge self.entry.shapes.now kind s t
            → rank_in result kind t < rank_in result kind s }
        ensures every { HasRanks result (length self.entry.shapes.now) }
    {
        let Graphs {
            shapes: _,
            contains,
            embeds,
            aliases,
            constraints,
            values,
        } = self;
        Ranks {
            contains: contains.ranks,
            embeds: embeds.ranks,
            aliases: aliases.ranks,
            constraints: constraints.ranks,
            values: values.ranks,
        }
    }
}

/// Tells of each declaration whether it lies on a forbidden cycle: the first kind of which it lies on one. Takes time
/// in proportion to the declarations, their parameters, and what they contain and list.
pub fn cycle_kinds(
    alloc: Global,
    shapes: &[DeclShape],
) -> Result<Vec<Option<CycleKind>>, AllocError>
    requires size { length shapes.now < 2 ^ 32 }
    requires shapes { AreShapes shapes.now }
    ensures { IfOk result (λ kinds. AreFirstKinds shapes.now (length shapes.now) kinds.items) }
{
    let graphs = rank_all(alloc, shapes)?;
    graphs.kinds(alloc)
}

/// Tells whether one of these declarations lies on a forbidden cycle: of containment, of embedding, of aliases, of type
/// parameter lists or of constants' values. Takes time in proportion to the declarations, their parameters, and what
/// they contain and list.
pub fn check_cycles(alloc: Global, shapes: &[DeclShape]) -> Result<Ranks, CycleFault>
    requires size { length shapes.now < 2 ^ 32 }
    requires shapes { AreShapes shapes.now }
    ensures ranks { IfOk result (λ ranks. (kind : CycleKind) (s t : ℕ) → IsEdge shapes.now kind s t
        → rank_in ranks kind t < rank_in ranks kind s) }
    ensures every { IfOk result (λ ranks. HasRanks ranks (length shapes.now)) }
    ensures acyclic { OnOk result ((kind : CycleKind) (s : ℕ) → IsCyclic shapes.now kind s → ⊥) }
    ensures found { (kind : CycleKind) (item : ℕ) → result ≡ Err (CycleFault.Found kind item)
        → IsFirstCycle shapes.now kind item }
{
    let graphs = rank_all(alloc, shapes)?;
    if let Some((kind, item)) = graphs.first() {
        return Err(CycleFault::Found { kind, item });
    }
    Ok(graphs.into_ranks())
}

/// Where each edge of a kind leads to a smaller rank, no declaration lies on a cycle of that kind.
pub fn ranks_exclude_cycles()
    ensures { (shapes : List DeclShape) (kind : CycleKind) (rank : ℕ → ℕ)
        → ((s t : ℕ) → IsEdge shapes kind s t → rank t < rank s) → (s : ℕ) → IsCyclic shapes kind s → ⊥ }
{}

/// A declaration contains no parameters but its own, so an argument for which there is none counts for nothing.
pub fn only_own_parameters_count()
    ensures { (shapes : List DeclShape) → AreShapes shapes → (s : ℕ) (of : DeclShape) → slice_get shapes s ≡ Some of
        → (k : ℕ) → of.params ≤ k → Owns shapes s (parameter k) → ⊥ }
{}
