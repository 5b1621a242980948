//! The unique table.

ghost use Rattle.std.specs.Prelude.{◌≡◌, ◌≢◌, ℕ, ◌+◌, ◌^◌, ◌<◌, ◌≤◌, ◌↔◌, Bool, List, [], ◌∷◌, length, IsTrue, IfOk, OnOk, OnErr, EachIndex, slice_index, if◌then◌else◌};
ghost use Rattle.bdd_table.specs.Diagram.{Bits, as_bits, bottom, node_of, at, level_of, means, IsReduced, GrowsTable, Keeps, AddsNode};
ghost use Rattle.bdd_table.specs.Collected.{IsMoved, Reaches, AreReached};

use crate::hashing::WordHasher;
use crate::marks::mark;
use crate::node::Node;
use crate::rebuild::renumber;
use indexmap::IndexSet;
use std::alloc::{AllocError, Global};
use std::hash::BuildHasherDefault;
use std::marker::Model;

/// The name of a diagram in its table: a place. 0 is false, 1 is true, and nodes count on from 2.
pub type Id = usize;

/// Out of memory, the one fault of a table.
pub type TableFault = AllocError;

/// The Id of the function that is never true.
pub const FALSE: Id = 0;

/// The Id of the function that is always true.
pub const TRUE: Id = 1;

/// The level of the two constants.
const BOTTOM: u32 = u32::MAX;

/// Nodes, each once, found by their hashes.
type Nodes = IndexSet<Node, BuildHasherDefault<WordHasher>>;

/// Unique table: nodes, each once. Contracts see it as the list of its nodes by Id, the constants first; the list is
/// always reduced.
#[derive(Drop)]
pub struct Table {
    nodes: Nodes,
}

impl Model for Table {
    ghost use Rattle.std.specs.Prelude.{List};
    ghost use Rattle.bdd_table.specs.declared.node.Node.{Node};
    ghost use Rattle.bdd_table.specs.Diagram.{IsReduced};

    ghost Value = { List Node };

    ghost view = { λ t. t.nodes.keys };

    ghost invariant = { λ t. IsReduced t.nodes.keys };
}

impl Table {
    /// A table with no node but the constants.
    pub fn new(alloc: Global) -> Result<Table, TableFault>
        ensures empty { IfOk result (λ t. t ≡ node_of bottom 0 0 ∷ node_of bottom 1 1 ∷ []) }
        ensures reduced { IfOk result IsReduced }
    {
        let mut nodes = IndexSet::with_hasher(alloc, BuildHasherDefault::new());
        nodes.insert_full(constant(0))?;
        nodes.insert_full(constant(1))?;
        Ok(Table { nodes })
    }

    /// The allocator of the table.
    pub fn allocator(&self) -> Global
        ensures reduced { IsReduced self.now }
    {
        *self.nodes.allocator()
    }

    /// The number of nodes, the constants not counted.
    pub fn held(&self) -> usize
        ensures count { result + 2 ≡ length self.now }
        ensures small { result + 2 < 2 ^ 63 }
        ensures reduced { IsReduced self.now }
    {
        self.nodes.len() - 2
    }

    /// The node with this Id. A constant is a node at level `u32::MAX` whose children are itself.
    pub fn get(&self, id: Id) -> Node
        requires { id < length self.now }
        ensures is { result ≡ at self.now id }
        ensures reduced { IsReduced self.now }
    {
        match self.nodes.get_index(id) {
            Some(node) => *node,
            None => constant(0),
        }
    }

    /// The level of the Id, `u32::MAX` for a constant.
    pub fn level(&self, id: Id) -> u32
        requires { id < length self.now }
        ensures { result ≡ level_of self.now id }
    {
        self.get(id).level
    }

    /// Negative cofactor: what is left of the Id where its level is false. Of a constant it is the constant.
    #[tactic(auto, using(crate::proofs::Adding::lo_known))]
    pub fn lo(&self, id: Id) -> Id
        requires { id < length self.now }
        ensures value { result ≡ (at self.now id).lo }
        ensures before { 2 ≤ id → result < id }
        ensures known { result < length self.now }
    {
        let _ = &self.nodes;
        self.get(id).lo as usize
    }

    /// Positive cofactor: what is left of the Id where its level is true. Of a constant it is the constant.
    #[tactic(auto, using(crate::proofs::Adding::hi_known))]
    pub fn hi(&self, id: Id) -> Id
        requires { id < length self.now }
        ensures value { result ≡ (at self.now id).hi }
        ensures before { 2 ≤ id → result < id }
        ensures known { result < length self.now }
    {
        let _ = &self.nodes;
        self.get(id).hi as usize
    }

    /// Whether two Ids mean the same. That is so exactly where they are equal, so it costs one comparison.
    pub fn same(&self, f: Id, g: Id) -> bool
        requires f { f < length self.now }
        requires g { g < length self.now }
        ensures ids { IsTrue result ↔ (f ≡ g) }
        ensures bits { IsTrue result ↔ ((b : Bits) → means self.now f b ≡ means self.now g b) }
        ensures lists { IsTrue result
            ↔ ((values : List Bool) → means self.now f (as_bits values) ≡ means self.now g (as_bits values)) }
    {
        let _ = &self.nodes;
        f == g
    }

    /// The Id of the function that means what `hi` means where the level is true, else what `lo` means: the child
    /// where both are equal, the old Id where the node is there, else the next. The level is less than those of both
    /// children.
    pub fn node(&mut self, level: u32, lo: Id, hi: Id) -> Result<Id, TableFault>
        requires lo_known { lo < length self.old }
        requires hi_known { hi < length self.old }
        requires lo_below { level < level_of self.old lo }
        requires hi_below { level < level_of self.old hi }

        // Either nothing was to be done, or the node has the Id and nothing else was added.
        ensures equal { IfOk result (λ id. lo ≡ hi → (id ≡ lo) × (self.new ≡ self.old)) }
        ensures added { IfOk result (λ id. lo ≢ hi → AddsNode self.old (node_of level lo hi) self.new id) }

        // What follows of the Id, and what stays.
        ensures known { IfOk result (λ id. id < length self.new) }
        ensures below { IfOk result (λ id. level ≤ level_of self.new id) }
        ensures meaning { IfOk result (λ id. (b : Bits) → means self.new id b
            ≡ (if b level then means self.new hi b else means self.new lo b)) }
        ensures grows { GrowsTable self.old self.new }
        ensures kept { Keeps self.old self.new }
        ensures reduced { IsReduced self.new }
        ensures err { OnErr result (self.new ≡ self.old) }
    {
        if lo == hi {
            let _ = &self.nodes;
            return Ok(lo);
        }
        if self.nodes.len() > u32::MAX as usize {
            return Err(AllocError);
        }
        add(
            &mut self.nodes,
            Node {
                level,
                lo: lo as u32,
                hi: hi as u32,
            },
        )
    }

    /// Garbage collection: throws away the nodes that no root reaches. Ids change, and the roots are moved to theirs;
    /// no other Id but those of the constants is known afterwards. It takes time and memory in proportion to the
    /// whole table. The roots are Ids of the table.
    pub fn collect(&mut self, roots: &mut [Id]) -> Result<(), TableFault>
        requires { EachIndex roots.old (λ i. slice_index roots.old i < length self.old) }
        ensures moved { OnOk result (EachIndex roots.old
            (λ i. IsMoved self.old self.new (slice_index roots.old i) (slice_index roots.new i))) }

        // What is left is what the roots reach, and as many nodes as they reached.
        ensures exact { OnOk result ((id : ℕ) → 2 ≤ id → id < length self.new → Reaches self.new roots.new id) }
        ensures count { OnOk result ((ids : List ℕ) → AreReached self.old roots.old ids
            → length self.new ≡ length ids + 2) }
        ensures reduced { IsReduced self.new }

        // When out of memory, all is as before.
        ensures err { OnErr result (self.new ≡ self.old) }
        ensures roots_err { OnErr result (roots.new ≡ roots.old) }
    {
        let alloc = self.allocator();
        let marks = mark(alloc, self, roots)?;
        let (kept, places) = renumber(alloc, self, &marks)?;
        move_roots(roots, &places);
        refill(&mut self.nodes, &kept);
        Ok(())
    }
}

/// Puts the place of each root in its stead.
fn move_roots(roots: &mut [Id], places: &[u32])
    requires { EachIndex roots.old (λ i. slice_index roots.old i < length places.now) }
    ensures { EachIndex roots.old
        (λ i. slice_index roots.new i ≡ slice_index places.now (slice_index roots.old i)) }
{
    'roots: for i in 0..roots.len() {
        roots[i] = places[roots[i]] as usize;
    }
}

/// The node of a constant.
pub(crate) fn constant(id: u32) -> Node
    ensures { result ≡ node_of bottom id id }
{
    Node {
        level: BOTTOM,
        lo: id,
        hi: id,
    }
}

/// The place of the node, which goes last if it is new.
fn add(nodes: &mut Nodes, node: Node) -> Result<Id, TableFault>
    ensures ok { IfOk result (AddsNode nodes.old.keys node nodes.new.keys) }
    ensures err { OnErr result (nodes.new.keys ≡ nodes.old.keys) }
{
    let (id, _) = nodes.insert_full(node)?;
    Ok(id)
}

/// Puts these nodes in the stead of at least as many. The room that they leave is kept for nodes to come, up to as many
/// again: where they are few, a small table is the quicker one.
fn refill(nodes: &mut Nodes, kept: &[Node])
    requires each_once { IsReduced kept.now }
    requires fits { length kept.now ≤ length nodes.old.keys }
    ensures { nodes.new.keys ≡ kept.now }
{
    nodes.clear();
    nodes.shrink_to(kept.len().saturating_mul(2));
    for i in 0..kept.len() {
        nodes.insert_full(kept[i]).unwrap();
    }
}
