//! The strongly connected components of a graph, numbered so that no edge leads to a greater number.

ghost use Rattle.std.specs.Prelude.{◌≡◌, ℕ, ◌+◌, ◌-◌, ◌*◌, ◌<◌, ◌≤◌, ◌^◌, ◌↔◌, ◌⊎◌, List, [], ◌∷◌, ◌++◌, length, take};
ghost use Rattle.std.specs.Prelude.{map, IsTrue, IfOk, IfSome, IfNone, OnOk, OnSome, IsFalse, slice_get, slice_set};
ghost use Rattle.std.specs.Prelude.{count_by};
ghost use Rattle.cycle_rules.specs.Paths.{Arrow, IsGraph, TellsCycles};
ghost use Rattle.cycle_rules.specs.Search.{rank_in, Searches, edges_of, Reaches, IsSearch, HasRoom, RanksComponents};
ghost use Rattle.cycle_rules.specs.Search.{is_new};

use std::alloc::{AllocError, Global};

/// How far the search is with a node.
#[derive(Clone, Copy)]
pub enum Mark {
    New,
    /// At this place of the stack.
    Open(usize),
    /// In the component of this rank.
    Done(u64),
}

/// Where a component on the way begins.
#[derive(Clone, Copy)]
pub struct Bound {
    pub stack: usize,
    pub pending: usize,
}

/// A search along a path of components.
#[derive(Drop)]
pub struct Search<'a> {
    /// The nodes that each node's edges lead to.
    pub graph: &'a [&'a [u32]],
    pub marks: Vec<Mark>,
    /// The open nodes, in the order in which they were met.
    pub stack: Vec<u32>,
    /// The nodes that edges lead to that weren't followed yet.
    pub pending: Vec<u32>,
    pub bounds: Vec<Bound>,
    /// How many components are done.
    pub rank: u64,
}

impl<'a> Search<'a> {
    /// A search that hasn't met any node yet.
    fn new(alloc: Global, graph: &'a [&'a [u32]]) -> Result<Search<'a>, AllocError>
        requires size { length graph.now < 2 ^ 32 }
        ensures graph { IfOk result (λ s. s.graph ≡ graph.entry) }
        ensures search { IfOk result (λ s. Searches s s.pending.items) }
    {
        let count = graph.len();
        let mut pending = Vec::with_capacity(alloc, count)?;
        for node in 0..count as u32 {
            pending.push(node)?;
        }
        Ok(Search {
            graph,
            marks: vec![in alloc; Mark::New; count]?,
            stack: Vec::new(alloc),
            pending,
            bounds: Vec::new(alloc),
            rank: 0,
        })
    }

    /// Opens a new node as a component of its own, with its edges to be followed.
    fn enter(&mut self, node: u32) -> Result<(), AllocError>
        requires graph { IsGraph (edges_of self.old) }
        requires search { Searches self.old (self.old.pending.items ++ node ∷ []) }
        requires room { HasRoom self.old.bounds.items self.old.pending.items }
        requires new { slice_get self.old.marks.items node ≡ Some Mark.New }
        ensures graph { self.new.graph ≡ self.old.graph }
        ensures search { OnOk result (Searches self.new self.new.pending.items) }
        ensures fewer { OnOk result (count_by is_new self.new.marks.items + 1 ≡ count_by is_new self.old.marks.items) }
    {
        let graph = self.graph;
        let place = self.stack.len();
        self.bounds.push(Bound {
            stack: place,
            pending: self.pending.len(),
        })?;
        self.marks[node as usize] = Mark::Open(place);
        self.stack.push(node)?;
        self.pending.extend_from_slice(graph[node as usize])?;
        Ok(())
    }

    /// Makes one component of those that begin at this place of the stack or later, and the one before.
    fn merge(&mut self, place: usize)
        ensures kept { self.new.bounds.items ≡ take (length self.new.bounds.items) self.old.bounds.items }
        ensures merged { (j : ℕ) (b : Bound) → length self.new.bounds.items ≤ j
            → slice_get self.old.bounds.items j ≡ Some b → place < b.stack }
        ensures last { (k : ℕ) (b : Bound) → k + 1 ≡ length self.new.bounds.items
            → slice_get self.new.bounds.items k ≡ Some b → b.stack ≤ place }
        ensures marks { self.new.marks ≡ self.old.marks }
        ensures stack { self.new.stack ≡ self.old.stack }
        ensures pending { self.new.pending ≡ self.old.pending }
        ensures rank { self.new.rank ≡ self.old.rank }
        ensures graph { self.new.graph ≡ self.old.graph }
    {
        while let Some(bound) = self.bounds.last().copied() {
            if bound.stack <= place {
                break;
            }
            let _ = self.bounds.pop();
        }
    }

    /// Makes the nodes from this place of the stack on one component, of the next rank.
    fn close(&mut self, place: usize)
        requires within { place ≤ length self.old.stack.items }
        requires opened { (i v : ℕ) → slice_get self.old.stack.items i ≡ Some v
            → slice_get self.old.marks.items v ≡ Some (Mark.Open i) }
        requires fits { self.old.rank + 1 < 2 ^ 64 }
        ensures closed { (i v : ℕ) → place ≤ i → slice_get self.old.stack.items i ≡ Some v
            → slice_get self.new.marks.items v ≡ Some (Mark.Done self.old.rank) }
        ensures others { (v : ℕ) → ((i : ℕ) → place ≤ i → slice_get self.old.stack.items i ≡ Some v → ⊥)
            → slice_get self.new.marks.items v ≡ slice_get self.old.marks.items v }
        ensures sized { length self.new.marks.items ≡ length self.old.marks.items }
        ensures fresh { count_by is_new self.new.marks.items ≡ count_by is_new self.old.marks.items }
        ensures stack { self.new.stack.items ≡ take place self.old.stack.items }
        ensures pending { self.new.pending ≡ self.old.pending }
        ensures bounds { self.new.bounds ≡ self.old.bounds }
        ensures rank { self.new.rank ≡ self.old.rank + 1 }
        ensures graph { self.new.graph ≡ self.old.graph }
    {
        while self.stack.len() > place {
            let Some(node) = self.stack.pop() else {
                break;
            };
            self.marks[node as usize] = Mark::Done(self.rank);
        }
        self.rank += 1;
    }

    /// Closes the last component if nothing of it waits.
    fn complete(&mut self) -> bool
        requires search { Searches self.old self.old.pending.items }
        requires size { length (edges_of self.old) < 2 ^ 32 }
        ensures graph { self.new.graph ≡ self.old.graph }
        ensures pending { self.new.pending ≡ self.old.pending }
        ensures search { Searches self.new self.new.pending.items }
        ensures fresh { count_by is_new self.new.marks.items ≡ count_by is_new self.old.marks.items }
        ensures closed { IsTrue result → length self.new.bounds.items + 1 ≡ length self.old.bounds.items }
        ensures same { IsFalse result → self.new.bounds ≡ self.old.bounds }
        ensures room { IsFalse result → (k : ℕ) (b : Bound) → slice_get self.old.bounds.items k ≡ Some b
            → b.pending < length self.old.pending.items }
        ensures ended { IsFalse result → length self.old.pending.items ≡ 0 → length self.old.bounds.items ≡ 0 }
    {
        let Some(bound) = self.bounds.last().copied() else {
            return false;
        };
        if bound.pending < self.pending.len() {
            return false;
        }
        self.close(bound.stack);
        let _ = self.bounds.pop();
        true
    }

    /// Follows the last pending edge, and answers the node that it leads to where that is new.
    fn follow(&mut self) -> Option<u32>
        requires search { Searches self.old self.old.pending.items }
        requires room { (k : ℕ) (b : Bound) → slice_get self.old.bounds.items k ≡ Some b
            → b.pending < length self.old.pending.items }
        ensures graph { self.new.graph ≡ self.old.graph }
        ensures fresh { self.new.marks ≡ self.old.marks }
        ensures bounds { length self.new.bounds.items ≤ length self.old.bounds.items }
        ensures pending { length self.new.pending.items ≡ length self.old.pending.items - 1 }
        ensures search { IfNone result (Searches self.new self.new.pending.items) }
        ensures found { IfSome result (λ node. Searches self.new (self.new.pending.items ++ node ∷ [])) }
        ensures room { OnSome result (HasRoom self.new.bounds.items self.new.pending.items) }
        ensures new { IfSome result (λ node. slice_get self.new.marks.items node ≡ Some Mark.New) }
    {
        let node = self.pending.pop()?;
        match self.marks[node as usize] {
            Mark::New => return Some(node),
            Mark::Open(place) => self.merge(place),
            Mark::Done(_) => {}
        }
        None
    }

    /// Follows edges and closes components until a new node comes or nothing is left.
    fn next(&mut self) -> Option<u32>
        requires search { Searches self.old self.old.pending.items }
        requires size { length (edges_of self.old) < 2 ^ 32 }
        ensures graph { self.new.graph ≡ self.old.graph }
        ensures fresh { count_by is_new self.new.marks.items ≡ count_by is_new self.old.marks.items }
        ensures search { IfNone result (Searches self.new self.new.pending.items) }
        ensures ended { IfNone result ((length self.new.pending.items ≡ 0) × (length self.new.bounds.items ≡ 0)) }
        ensures found { IfSome result (λ node. Searches self.new (self.new.pending.items ++ node ∷ [])) }
        ensures room { OnSome result (HasRoom self.new.bounds.items self.new.pending.items) }
        ensures new { IfSome result (λ node. slice_get self.new.marks.items node ≡ Some Mark.New) }
    {
        loop {
            if self.complete() {
                continue;
            }
            if self.pending.is_empty() {
                return None;
            }
            if let Some(node) = self.follow() {
                return Some(node);
            }
        }
    }

    /// The rank of each node's component, after the search.
    fn into_ranks(self, alloc: Global) -> Result<Vec<u64>, AllocError>
        requires search { Searches self self.pending.items }
        requires pending { length self.pending.items ≡ 0 }
        requires bounds { length self.bounds.items ≡ 0 }
        ensures { IfOk result (λ ranks. RanksComponents (edges_of self.entry) ranks.items) }
    {
        ranks_in(alloc, &self.marks)
    }
}

/// The ranks of these marks.
fn ranks_in(alloc: Global, marks: &[Mark]) -> Result<Vec<u64>, AllocError>
    ensures { IfOk result (λ ranks. ranks.items ≡ map rank_in marks.now) }
{
    marks.iter().map(|mark| mark.rank()).collect(alloc)
}

impl Mark {
    fn rank(self) -> u64
        ensures { result ≡ rank_in self }
    {
        match self {
            Mark::Done(rank) => rank,
            _ => 0,
        }
    }
}

/// Numbers the strongly connected components of a graph, so that no edge leads to a greater number, and answers each
/// node's. The graph has for each node those that its edges lead to. Takes time in proportion to the nodes and edges.
pub fn component_ranks(alloc: Global, graph: &[&[u32]]) -> Result<Vec<u64>, AllocError>
    requires size { length graph.now < 2 ^ 32 }
    requires graph { IsGraph (map (λ t. t.now) graph.now) }
    ensures { IfOk result (λ ranks. RanksComponents (map (λ t. t.now) graph.now) ranks.items) }
{
    let mut search = Search::new(alloc, graph)?;
    while let Some(node) = search.next() {
        search.enter(node)?;
    }
    search.into_ranks(alloc)
}

/// Whether one of these nodes has this rank.
fn has_rank(ranks: &[u64], nodes: &[u32], rank: u64) -> bool
    requires inside { (k v : ℕ) → slice_get nodes.now k ≡ Some v → v < length ranks.now }
    ensures some { IsTrue result → (k : ℕ) × (v : ℕ) × (slice_get nodes.now k ≡ Some v)
        × (slice_get ranks.now v ≡ Some rank) }
    ensures none { IsFalse result → (k v : ℕ) → slice_get nodes.now k ≡ Some v → slice_get ranks.now v ≡ Some rank → ⊥ }
{
    for node in nodes {
        if ranks[*node as usize] == rank {
            return true;
        }
    }
    false
}

/// For each node whether it lies on a cycle, by the ranks of the components.
pub fn on_cycles(alloc: Global, graph: &[&[u32]], ranks: &[u64]) -> Result<Vec<bool>, AllocError>
    requires graph { IsGraph (map (λ t. t.now) graph.now) }
    requires ranks { RanksComponents (map (λ t. t.now) graph.now) ranks.now }
    ensures { IfOk result (λ told. TellsCycles (Arrow (map (λ t. t.now) graph.now)) (length graph.now) told.items) }
{
    let mut told = Vec::with_capacity(alloc, graph.len())?;
    for (node, targets) in graph.iter().enumerate() {
        told.push(has_rank(ranks, targets, ranks[node]))?;
    }
    Ok(told)
}
