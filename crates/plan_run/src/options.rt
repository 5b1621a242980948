//! The options of a list: how many plans, up to which cost, and how they are searched for.

ghost use Rattle.std.specs.Prelude.{◌≡◌, ◌≤◌};
ghost use Rattle.plan_run.specs.Lists.{asked};

/// Which sides a search settles.
#[derive(Clone, Copy, Debug, PartialEq, Eq)]
pub enum Direction {
    Auto,
    Forward,
    Backward,
    Bidirectional,
}

/// How plans are searched for, which changes no list.
#[derive(Clone, Copy, Debug, PartialEq, Eq)]
pub struct Search {
    /// Which sides are settled.
    pub direction: Direction,
    /// Whether the stated mutex groups that are shown inductive cut the search backward.
    pub mutex: bool,
}

/// How many plans are wanted, and whether one more is looked for after them.
#[derive(Clone, Copy, Debug, PartialEq, Eq)]
pub struct Wanted {
    pub count: u64,
    pub more: bool,
}

impl Wanted {
    /// How many plans are asked for.
    pub fn asked(self) -> u64
        requires { self.count ≤ 1000000000 }
        ensures { result ≡ asked self }
    {
        if self.more {
            self.count + 1
        } else {
            self.count
        }
    }
}

/// Up to which cost plans are wanted.
#[derive(Clone, Copy, Debug, PartialEq, Eq)]
pub enum Reach {
    /// Up to any.
    All,
    /// Up to this one.
    UpTo(u64),
    /// Up to so many percent of the least cost of a plan.
    Percent(u64),
}
