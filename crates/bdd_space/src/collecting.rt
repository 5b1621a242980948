//! Nodes that no set needs are thrown away.

ghost use Rattle.std.specs.Prelude.{◌≡◌, ◌<◌, ◌≤◌, ◌+◌, ◌↔◌, ℕ, List, length, slice_index, EachIndex, IsTrue, IfOk, OnOk, OnErr};
ghost use Rattle.bdd_table.specs.Diagram.{IsReduced};
ghost use Rattle.bdd_table.specs.Collected.{IsMoved, Reaches, AreReached};
ghost use Rattle.space_api.specs.Frames.{Stays};
ghost use Rattle.space_api.specs.Tidied.{IsFull, Collected, SameRoom};
ghost use Rattle.bdd_space.specs.Symbolic.{symbolic_roots};
ghost use Rattle.bdd_space.specs.Seen.{seen, Needs};

use crate::symbolic::{BddSpace, Own};
use bdd_ops::Ops;
use bdd_table::Id;
use symk_task::Memory;

/// Below so many nodes a collection isn't worth its time.
const FEW: u128 = 1000;

/// With so many nodes the table is never crowded.
const MANY: usize = 1_000_000;

/// How many Ids a space keeps for itself.
const OWN: usize = 3;

/// Collects for these roots, and gives where they are then. When out of memory, the table is as before.
fn moved(ops: &mut Ops, roots: Vec<Id>) -> Result<Vec<Id>, Memory>
    requires { EachIndex roots.items (λ i. slice_index roots.items i < length ops.old) }
    ensures as_long { IfOk result (λ places. length places.items ≡ length roots.items) }
    ensures moved { IfOk result (λ places. EachIndex roots.items
        (λ i. IsMoved ops.old ops.new (slice_index roots.items i) (slice_index places.items i))) }
    ensures exact { IfOk result (λ places. (id : ℕ) → 2 ≤ id → id < length ops.new → Reaches ops.new places.items id) }
    ensures count { IfOk result (λ _. (ids : List ℕ) → AreReached ops.old roots.items ids → length ops.new ≡
        length ids + 2) }
    ensures reduced { IsReduced ops.new }
    ensures err { OnErr result (ops.new ≡ ops.old) }
{
    let mut places = roots;
    ops.collect(&mut places)?;
    Ok(places)
}

impl<'a> BddSpace<'a> {
    /// How many nodes the table holds.
    pub(crate) fn nodes(&self) -> usize
        ensures { result ≡ (seen self.now).held }
    {
        self.ops.table().held()
    }

    /// Whether more nodes are held than twice those that were needed last, and 1,000.
    pub(crate) fn is_full(&self) -> bool
        ensures { IsTrue result ↔ IsFull (seen self.now) }
    {
        self.nodes() as u128 > 2 * self.last as u128 + FEW
    }

    /// The Ids that the space needs.
    fn roots(&self) -> Result<Vec<Id>, Memory>
        ensures { IfOk result (λ roots. roots.items ≡ symbolic_roots self.now) }
    {
        let mut roots = Vec::new(self.ops.table().allocator());
        roots.push(self.own.all)?;
        roots.push(self.own.start)?;
        roots.push(self.own.goals)?;
        self.relations.push_roots(&mut roots)?;
        self.sets.push_roots(&mut roots)?;
        Ok(roots)
    }

    /// Throws away the nodes that neither a valid set nor the space itself needs. When out of memory, all is as
    /// before.
    pub(crate) fn collect(&mut self) -> Result<(), Memory>
        ensures stays { Stays (seen self.old) (seen self.new) }
        ensures ok { OnOk result (Collected (Needs self.old) (Needs self.new) (seen self.old) (seen self.new)) }
        ensures err { OnErr result (SameRoom (seen self.old) (seen self.new)) }
        ensures task { self.new.task ≡ self.old.task }
    {
        let roots = self.roots()?;
        let places = moved(&mut self.ops, roots)?;
        let at = places.as_slice();
        let count = self.relations.roots();
        self.own = Own {
            all: at[0],
            start: at[1],
            goals: at[2],
        };
        self.relations.take_roots(at, OWN);
        self.sets.take_roots(at, OWN + count);
        self.last = self.ops.table().held();
        self.swept = self.last;
        Ok(())
    }

    /// Whether many nodes are held, and more than four times those that were held after the last sweep.
    fn is_crowded(&self) -> bool {
        let nodes = self.nodes();
        MANY < nodes && self.swept < nodes / 4
    }

    /// Collects where the table is crowded, though no caller asks for it, so that garbage doesn't make it grow. What
    /// was needed when one asked last stays as it was told.
    pub(crate) fn sweep(&mut self)
        ensures stays { Stays (seen self.old) (seen self.new) }
        ensures last { (seen self.new).last ≡ (seen self.old).last }
        ensures task { self.new.task ≡ self.old.task }
    {
        if self.is_crowded() {
            let last = self.last;
            let _ = self.collect();
            self.swept = self.nodes();
            self.last = last;
        }
    }
}
