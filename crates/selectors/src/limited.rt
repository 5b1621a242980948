//! The first plans of an engine.

ghost use Rattle.std.specs.Prelude.{◌≡◌, ◌≤◌, false};
ghost use Rattle.selectors.specs.Limits.{Limit};

mod next;

use lazy_plans::LazyPlans;
use std::alloc::Global;
use std::marker::Model;

/// The first `k` plans of an engine, or as many as it has.
///
/// An iterator: each call asks the engine once, with a count of its own for the turns, and gives its plan or its
/// `Stop`. It gives nothing once `k` plans were given, or the engine has stopped or has none left, and asks nothing
/// then.
#[derive(Drop)]
pub struct Limited<I> {
    inner: I,
    k: u64,
    listed: u64,
    ended: bool,
    alloc: Global,
}

impl<I> Model for Limited<I> {
    ghost Value = { Limit I };

    ghost view = { λ x. record { inner = x.inner; k = x.k; listed = x.listed; ended = x.ended } };

    ghost invariant = { λ x. x.listed ≤ x.k };
}

impl<I: LazyPlans> Limited<I> {
    /// The first `k` plans of `inner`, of which none is given yet.
    pub fn new(alloc: Global, inner: I, k: u64) -> Limited<I>
        ensures { result ≡ record { inner = inner; k = k; listed = 0; ended = false } }
    {
        Limited {
            inner,
            k,
            listed: 0,
            ended: false,
            alloc,
        }
    }

    /// How many plans were given.
    pub fn listed(&self) -> u64
        ensures { result ≡ self.now.listed }
    {
        self.listed
    }
}
