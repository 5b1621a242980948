//! Which prefix that was opened may join another one. No clause tells of it: it steers speed alone.

use indexmap::IndexMap;
use prefix_tree::Node;
use std::alloc::{AllocError, Global};

/// Of prefixes that were opened, by the number of their last state and a sum of their operators that doesn't depend on
/// their order, which of them it was, counted in the order in which they were opened.
#[derive(Drop)]
pub(crate) struct Hints {
    /// The sums of the prefixes of the tree. The last ones may have no place here.
    sums: Vec<u64>,
    numbers: IndexMap<(u64, usize), usize>,
}

/// A number of the operator: operators have numbers that tend to differ in each bit (splitmix64, S. Vigna, 2015).
fn mixed(op: u32) -> u64 {
    let one = (op as u64)
        .wrapping_add(1)
        .wrapping_mul(0x9e37_79b9_7f4a_7c15);
    let two = (one ^ (one >> 30)).wrapping_mul(0xbf58_476d_1ce4_e5b9);
    let three = (two ^ (two >> 27)).wrapping_mul(0x94d0_49bb_1331_11eb);
    three ^ (three >> 31)
}

impl Hints {
    /// No prefix was opened.
    pub(crate) fn new(alloc: Global) -> Hints {
        Hints {
            sums: Vec::new(alloc),
            numbers: IndexMap::new(alloc),
        }
    }

    /// Works out the sums of prefixes that came to the tree since.
    fn add_up(&mut self, tree: &[Node]) -> Result<(), AllocError> {
        'nodes: for at in self.sums.len()..tree.len() {
            if let Some(here) = tree.get(at) {
                let before = match self.sums.get(here.parent) {
                    Some(sum) => *sum,
                    None => 0,
                };
                self.sums.push(before.wrapping_add(mixed(here.op)))?;
            }
        }
        Ok(())
    }

    /// What the prefix is found by.
    fn key(&mut self, tree: &[Node], node: usize) -> Result<(u64, usize), AllocError> {
        self.add_up(tree)?;
        let sum = match self.sums.get(node) {
            Some(sum) => *sum,
            None => 0,
        };
        let state = match tree.get(node) {
            Some(here) => here.state,
            None => 0,
        };
        Ok((sum, state))
    }

    /// Which prefix that was opened may join this one.
    pub(crate) fn find(&mut self, tree: &[Node], node: usize) -> Result<Option<usize>, AllocError> {
        let key = self.key(tree, node)?;
        match self.numbers.get(&key) {
            Some(number) => Ok(Some(*number)),
            None => Ok(None),
        }
    }

    /// The prefix is the one of this number among those that were opened.
    pub(crate) fn note(
        &mut self,
        tree: &[Node],
        node: usize,
        number: usize,
    ) -> Result<(), AllocError> {
        let key = self.key(tree, node)?;
        self.numbers.insert(key, number)?;
        Ok(())
    }
}
