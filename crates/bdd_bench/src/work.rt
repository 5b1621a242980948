//! The works, by their words.

use crate::deep::deep;
use crate::gripper::gripper;
use crate::queens::queens;
use crate::sliding::sliding;
use crate::switches::switches;
use bdd_ops::Ops;
use bdd_table::{Id, TableFault};

/// A kind of work.
#[derive(Clone, Copy, Debug, PartialEq, Eq)]
pub enum Kind {
    Queens,
    Switches,
    Sliding,
    Gripper,
    Deep,
}

/// A work, its size, and how many results the cache may hold.
#[derive(Clone, Copy, Debug, PartialEq, Eq)]
pub struct Work {
    pub kind: Kind,
    pub size: u16,
    pub cache: u32,
}

/// The last diagram of a work, how many rounds it took, and how many times the table was collected in them.
#[derive(Clone, Copy, Debug, PartialEq, Eq)]
pub struct Made {
    pub set: Id,
    pub rounds: u32,
    pub collected: u32,
}

impl Made {
    /// A diagram before the first round.
    pub fn of(set: Id) -> Made {
        Made {
            set,
            rounds: 0,
            collected: 0,
        }
    }
}

/// The work that the words name, None where they name none.
pub fn work_of(words: &[String]) -> Option<Work> {
    let [_, kind, size, cache] = words else {
        return None;
    };
    Some(Work {
        kind: kind_of(kind.as_str())?,
        size: size.as_str().parse::<u16>().ok()?,
        cache: cache.as_str().parse::<u32>().ok()?,
    })
}

/// The kind of that name.
fn kind_of(name: &str) -> Option<Kind> {
    match name {
        "queens" => Some(Kind::Queens),
        "switches" => Some(Kind::Switches),
        "sliding" => Some(Kind::Sliding),
        "gripper" => Some(Kind::Gripper),
        "deep" => Some(Kind::Deep),
        _ => None,
    }
}

impl Work {
    /// Does the work.
    pub fn make(self, ops: &mut Ops) -> Result<Made, TableFault> {
        match self.kind {
            Kind::Queens => queens(ops, self.size),
            Kind::Switches => switches(ops, self.size),
            Kind::Sliding => sliding(ops, self.size),
            Kind::Gripper => gripper(ops, self.size),
            Kind::Deep => deep(ops, self.size),
        }
    }
}
