//! What plans are told apart by.

ghost use Rattle.std.specs.Prelude.{◌≡◌, ◌++◌, ◌↔◌, [], ◌∷◌, ℕ, List, map, IsTrue, All, Contains, IfOk, OnErr, MatchBool};
ghost use Rattle.std.specs.List.Sorted.{IsPermutation, IsNonDecreasing};
ghost use Rattle.symk_task.specs.declared.parts.Mode.TheVariants.{Unordered as unordered};
ghost use Rattle.symk_task.specs.Plans.{IsListed};
ghost use Rattle.lazy_plans.specs.SelectorsOwe.{IsClassKey};
ghost use Rattle.selectors.specs.Noted.{IsPlanNoted};

use indexmap::IndexSet;
use std::alloc::Global;
use std::marker::Model;
use symk_task::{Memory, Mode, Plan};

/// Keys of plans, each once, in the order in which they came.
#[derive(Drop)]
pub struct Keys {
    set: IndexSet<Vec<u32>>,
}

impl Model for Keys {
    ghost Value = { List (List ℕ) };

    ghost view = { λ s. map (λ k. k.items) s.set.keys };
}

impl Keys {
    /// No keys.
    pub fn new(alloc: Global) -> Keys
        ensures { result ≡ [] }
    {
        Keys {
            set: IndexSet::new(alloc),
        }
    }

    /// Whether the key is one of them.
    pub fn has(&self, key: &[u32]) -> bool
        ensures { IsTrue result ↔ Contains self.now key.now }
    {
        self.set.contains(key)
    }

    /// Adds the key, and tells whether it is new. Out of memory, it leaves the keys as they were.
    pub fn note(&mut self, key: Vec<u32>) -> Result<bool, Memory>
        ensures noted { IfOk result (λ fresh. MatchBool fresh (self.new ≡ self.old ++ key.items ∷ [])
            (self.new ≡ self.old)) }
        ensures found { IfOk result (λ fresh. MatchBool fresh (¬ Contains self.old key.items)
            (Contains self.old key.items)) }
        ensures err { OnErr result (self.new ≡ self.old) }
    {
        let fresh = self.set.insert(key)?;
        Ok(fresh)
    }
}

/// The key of a plan: its operators, in rising order by `Unordered`. Two plans count as one by the mode exactly where
/// their keys are equal.
pub fn key_of(alloc: Global, mode: Mode, plan: &Plan) -> Result<Vec<u32>, Memory>
    ensures { IfOk result (λ key. IsClassKey mode plan.now key.items) }
{
    let key = Vec::from_slice(alloc, plan.as_slice())?;
    match mode {
        Mode::TopK | Mode::Loopless => Ok(key),
        Mode::Unordered => Ok(sorted(key)),
    }
}

/// The numbers, in rising order.
fn sorted(mut numbers: Vec<u32>) -> Vec<u32>
    ensures permutation { IsPermutation numbers.items result.items }
    ensures rising { IsNonDecreasing result.items }
{
    numbers.sort_unstable();
    numbers
}

/// Notes the class of the plan, by its key in `Unordered`, and tells whether the plan is a rearrangement of none whose
/// class was noted before. Out of memory, it leaves the keys as they were.
pub(crate) fn note_class(alloc: Global, seen: &mut Keys, plan: &Plan) -> Result<bool, Memory>
    requires { All (λ key. (p : List ℕ) × IsClassKey unordered p key) seen.old }
    ensures ok { IfOk result (λ fresh. MatchBool fresh
        (IsPlanNoted unordered seen.old seen.new plan.now)
        (IsListed unordered seen.old plan.now × (seen.new ≡ seen.old))) }
    ensures err { OnErr result (seen.new ≡ seen.old) }
{
    let key = key_of(alloc, Mode::Unordered, plan)?;
    let fresh = seen.note(key)?;
    Ok(fresh)
}
