//! The prefixes that were opened.

use crate::hints::Hints;
use indexmap::IndexSet;

/// The prefixes that were opened, and among them the plans.
#[derive(Drop)]
pub struct Opened {
    /// Their places in the tree, in the order in which they were opened.
    pub(crate) places: Vec<usize>,
    /// The keys of those that are plans.
    pub(crate) plans: IndexSet<Vec<usize>>,
    pub(crate) hints: Hints,
}

ghost use Rattle.std.specs.Prelude.{◌≡◌, ◌<◌, ◌^◌, [], ℕ, List, Option, true, IsTrue, Contains, IfOk, OnOk, OnErr, length};
ghost use Rattle.std.specs.Bool.{Decides};
ghost use Rattle.std.specs.List.{AllByRecursion};
ghost use Rattle.symk_task.specs.declared.parts.Mode.TheVariants.{TopK};
ghost use Rattle.task_system.specs.System.{State, System, IsSystemPlan};
ghost use Rattle.prefix_tree.specs.StateGraph.{AreDistinctStates};
ghost use Rattle.prefix_tree.specs.Tree.{IsTree, AreLinked, path_at};
ghost use Rattle.prefix_tree.specs.declared.entry.Entry.{Entry};
ghost use Rattle.member_laws.specs.Nodes.{IsJoinedAtNode};
ghost use Rattle.member_plans.specs.Opened.{places_of_opened, keys_of, opened_of, AreOpened, AddsKey, AddsPlace, IsMet};

use crate::joining::do_join;
use crate::keys::key_at;
use prefix_tree::{Entry, Node};
use std::alloc::{AllocError, Global};

impl Opened {
    /// No prefix.
    pub(crate) fn new(alloc: Global) -> Opened
        ensures places { places_of_opened result ≡ [] }
        ensures keys { keys_of result ≡ [] }
    {
        Opened {
            places: Vec::new(alloc),
            plans: IndexSet::new(alloc),
            hints: Hints::new(alloc),
        }
    }

    /// Whether the prefix, which is no plan, joins one that was opened, as far as a hint tells.
    fn finds(&mut self, alloc: Global, tree: &[Node], node: usize) -> Result<bool, AllocError>
        requires linked { AreLinked tree.now }
        requires node { node < length tree.now }
        requires inside { AllByRecursion (λ i. i < length tree.now) (places_of_opened self.old) }
        ensures places { places_of_opened self.new ≡ places_of_opened self.old }
        ensures keys { keys_of self.new ≡ keys_of self.old }
        ensures joined { (y : System) (states : List State) → IsTree y TopK states tree.now
            → IfOk result (λ found. IsTrue found → IsJoinedAtNode y (opened_of tree.now (places_of_opened self.old))
            (path_at tree.now node)) }
    {
        match self.hints.find(tree, node)? {
            None => Ok(false),
            Some(number) => match self.places.get(number) {
                None => Ok(false),
                Some(place) => do_join(alloc, tree, node, *place),
            },
        }
    }

    /// Whether the key is that of a plan that was opened.
    fn has(&self, key: &[usize]) -> bool
        ensures { Decides result (Contains (keys_of self.now) key.now) }
    {
        self.plans.contains(key)
    }

    /// Notes the key of the prefix, which is a plan. Out of memory, it leaves the keys as they were.
    fn note(&mut self, alloc: Global, tree: &[Node], node: usize) -> Result<(), AllocError>
        requires linked { AreLinked tree.now }
        requires node { node < length tree.now }
        ensures places { places_of_opened self.new ≡ places_of_opened self.old }
        ensures ok { OnOk result (AddsKey tree.now node true (keys_of self.old) (keys_of self.new)) }
        ensures err { OnErr result (keys_of self.new ≡ keys_of self.old) }
    {
        let key = key_at(alloc, tree, node)?;
        self.plans.insert(key)?;
        Ok(())
    }

    /// Puts the prefix at this place in, which is a plan or isn't. Out of memory, it leaves what was opened as it was.
    pub(crate) fn put(
        &mut self,
        alloc: Global,
        tree: &[Node],
        node: usize,
        is_plan: bool,
    ) -> Result<(), AllocError>
        requires linked { AreLinked tree.now }
        requires node { node < length tree.now }
        ensures ok { OnOk result (AddsPlace tree.now node is_plan self.old self.new) }
        ensures places { OnErr result (places_of_opened self.new ≡ places_of_opened self.old) }
        ensures keys { OnErr result (keys_of self.new ≡ keys_of self.old) }
        ensures fits { length (places_of_opened self.new) < 2 ^ 64 }
    {
        let number = self.places.len();
        self.hints.note(tree, node, number)?;
        self.places.push(node)?;
        if is_plan {
            match self.note(alloc, tree, node) {
                Ok(()) => {}
                Err(fault) => {
                    let _ = self.places.pop();
                    return Err(fault);
                }
            }
        }
        Ok(())
    }

    /// Whether the plan joins one that was opened.
    fn has_plan(&self, alloc: Global, tree: &[Node], node: usize) -> Result<bool, AllocError>
        requires linked { AreLinked tree.now }
        requires node { node < length tree.now }
        ensures { (y : System) (most : Option ℕ) (states : List State) → IsTree y TopK states tree.now
            → AreDistinctStates states
            → AreOpened y most tree.now (places_of_opened self.now) (keys_of self.now)
            → IsSystemPlan y (path_at tree.now node)
            → IfOk result (λ has. Decides has (IsJoinedAtNode y (opened_of tree.now (places_of_opened self.now))
            (path_at tree.now node))) }
    {
        let key = key_at(alloc, tree, node)?;
        Ok(self.has(&key))
    }

    /// Whether the entry's prefix joins one that was opened: of a plan exactly, of others as far as a hint tells.
    pub(crate) fn meets(
        &mut self,
        alloc: Global,
        tree: &[Node],
        entry: Entry,
    ) -> Result<bool, AllocError>
        requires linked { AreLinked tree.now }
        requires node { entry.node < length tree.now }
        requires inside { AllByRecursion (λ i. i < length tree.now) (places_of_opened self.old) }
        ensures places { places_of_opened self.new ≡ places_of_opened self.old }
        ensures keys { keys_of self.new ≡ keys_of self.old }
        ensures met { (y : System) (most : Option ℕ) (states : List State) → IsTree y TopK states tree.now
            → AreDistinctStates states → AreOpened y most tree.now (places_of_opened self.old) (keys_of self.old)
            → Decides entry.at_goal (IsSystemPlan y (path_at tree.now entry.node))
            → IfOk result (IsMet y (opened_of tree.now (places_of_opened self.old)) tree.now entry) }
    {
        if entry.at_goal {
            self.has_plan(alloc, tree, entry.node)
        } else {
            self.finds(alloc, tree, entry.node)
        }
    }
}
