//! The plans that were given last, and which prefixes go inside one of them: that have no operator but its own. What such
//! a prefix leads to is often that plan again. No clause tells of it: it steers speed alone.

ghost use Rattle.std.specs.Prelude.{◌++◌, IfOk};
ghost use Rattle.std.specs.List.Sorted.{IsPermutation};

use indexmap::IndexMap;
use prefix_tree::{Entry, Node};
use std::alloc::{AllocError, Global};

/// How many of the plans given last are looked at: one bit of a mask stands for each.
const LOOKED_AT: usize = 64;

/// Which of the plans given last have each operator of a prefix, as far as was known when so many plans had been given.
#[derive(Clone, Copy, Debug)]
struct Mask {
    plans: u64,
    given: usize,
}

/// The plans that were given last.
#[derive(Drop)]
pub(crate) struct Given {
    /// How many were given in all.
    many: usize,
    /// Which of them have the operator.
    having: IndexMap<u32, u64>,
    /// Of prefixes of the tree. The last ones may have no place here.
    masks: Vec<Mask>,
}

impl Given {
    /// None.
    pub(crate) fn new(alloc: Global) -> Given {
        Given {
            many: 0,
            having: IndexMap::new(alloc),
            masks: Vec::new(alloc),
        }
    }

    /// Which of them have the operator.
    fn having(&self, op: u32) -> u64 {
        match self.having.get(&op) {
            Some(plans) => *plans,
            None => 0,
        }
    }

    /// The plan takes the place of the one that was given `LOOKED_AT` plans before.
    fn forget_oldest(&mut self, bit: u64) {
        'operators: for plans in self.having.values_mut() {
            *plans = *plans & !bit;
        }
    }

    /// This plan was given too. Out of memory, it leaves it noted in part.
    pub(crate) fn note(&mut self, operators: &[u32]) -> Result<(), AllocError> {
        let bit = 1u64 << (self.many % LOOKED_AT);
        self.forget_oldest(bit);
        'operators: for op in operators {
            let plans = self.having(*op) | bit;
            let _: Option<u64> = self.having.insert(*op, plans)?;
        }
        self.many = self.many.wrapping_add(1);
        Ok(())
    }

    /// Puts masks in, which are out of date, for prefixes that came to the tree since.
    fn extend(&mut self, tree: &[Node]) -> Result<(), AllocError> {
        'nodes: for _ in self.masks.len()..tree.len() {
            self.masks.push(Mask {
                plans: 0,
                given: usize::MAX,
            })?;
        }
        Ok(())
    }

    /// The prefix and those before it, the longest first, up to one whose mask is up to date.
    fn outdated(
        &self,
        alloc: Global,
        tree: &[Node],
        node: usize,
    ) -> Result<Vec<usize>, AllocError> {
        let mut found = Vec::new(alloc);
        let mut at = node;
        'nodes: loop {
            match (tree.get(at), self.masks.get(at)) {
                (Some(here), Some(mask)) => {
                    if mask.given == self.many || here.parent >= at {
                        return Ok(found);
                    }
                    found.push(at)?;
                    at = here.parent;
                }
                (_, _) => return Ok(found),
            }
        }
    }

    /// The mask that was kept of the prefix; the empty one is in all plans.
    fn mask(&self, node: usize) -> u64 {
        if node == 0 {
            return u64::MAX;
        }
        match self.masks.get(node) {
            Some(mask) => mask.plans,
            None => 0,
        }
    }

    /// Brings the masks of the prefix and of those before it up to date.
    fn update(&mut self, alloc: Global, tree: &[Node], node: usize) -> Result<(), AllocError> {
        self.extend(tree)?;
        let outdated = self.outdated(alloc, tree, node)?;
        'nodes: for at in outdated.iter().rev() {
            if let Some(here) = tree.get(*at) {
                let plans = self.mask(here.parent) & self.having(here.op);
                if let Some(mask) = self.masks.get_mut(*at) {
                    *mask = Mask {
                        plans,
                        given: self.many,
                    };
                }
            }
        }
        Ok(())
    }

    /// Whether the child of a prefix that goes inside these plans goes inside one of them too.
    fn is_held(&self, tree: &[Node], plans: u64, child: Entry) -> bool {
        match tree.get(child.node) {
            Some(end) => plans & self.having(end.op) != 0,
            None => false,
        }
    }

    /// Parts the children of a prefix: where `held`, into those that go inside a plan given and the others, else into the
    /// others and those.
    pub(crate) fn part(
        &mut self,
        alloc: Global,
        tree: &[Node],
        node: usize,
        children: &[Entry],
        held: bool,
    ) -> Result<(Vec<Entry>, Vec<Entry>), AllocError>
        ensures { IfOk result (λ parts. IsPermutation children.now (parts.0.items ++ parts.1.items)) }
    {
        self.update(alloc, tree, node)?;
        let plans = self.mask(node);
        let mut here = Vec::new(alloc);
        let mut there = Vec::new(alloc);
        'children: for child in children {
            if self.is_held(tree, plans, *child) != held {
                there.push(*child)?;
                continue;
            }
            here.push(*child)?;
        }
        Ok((here, there))
    }
}
