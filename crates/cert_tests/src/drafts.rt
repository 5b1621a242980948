//! Lists of nodes that may be certificates.

use certificates::CertNode;
use std::alloc::Global;
use symk_task::Memory;

/// Nodes and a root, of which nothing is known.
#[derive(Drop)]
pub struct Draft {
    pub nodes: Vec<CertNode>,
    pub root: u64,
}

/// The nodes one bit above so many numbers, in pairs: where the bit is false the first of each, else the second.
fn level(
    alloc: Global,
    bit: u32,
    numbers: &[u64],
    nodes: &mut Vec<CertNode>,
) -> Result<Vec<u64>, Memory> {
    let mut above = Vec::new(alloc);
    for i in 0..numbers.len() / 2 {
        nodes.push(CertNode {
            bit,
            lo: numbers[2 * i],
            hi: numbers[2 * i + 1],
        })?;
        above.push((nodes.len() as u64).saturating_add(1))?;
    }
    Ok(above)
}

/// The tree of all bits, at whose leaves stands which codes are named.
pub fn tree(alloc: Global, width: u32, named: &[bool]) -> Result<Draft, Memory> {
    let mut numbers = Vec::new(alloc);
    for name in named {
        numbers.push(u64::from(*name))?;
    }
    let mut nodes = Vec::new(alloc);
    for i in 0..width {
        numbers = level(alloc, width - 1 - i, &numbers, &mut nodes)?;
    }
    Ok(Draft {
        nodes,
        root: numbers.first().copied().unwrap_or(0),
    })
}

/// The number, mixed.
fn mixed(number: u64) -> u64 {
    let first = (number ^ (number >> 30)).wrapping_mul(0xbf58_476d_1ce4_e5b9);
    first ^ (first >> 29)
}

/// A number below `count`, or 0, that the seed draws.
pub fn drawn(seed: u64, count: u64) -> u64 {
    mixed(seed.wrapping_mul(0x9e37_79b9_7f4a_7c15)) % count.max(1)
}

/// The node with one thing changed, as the seed draws: its children exchanged, or another child or bit.
fn changed_node(node: CertNode, seed: u64, known: u64) -> CertNode {
    let CertNode { bit, lo, hi } = node;
    let number = drawn(seed.wrapping_add(1), known);
    match drawn(seed, 4) {
        0 => CertNode {
            bit,
            lo: hi,
            hi: lo,
        },
        1 => CertNode {
            bit,
            lo: number,
            hi,
        },
        2 => CertNode {
            bit,
            lo,
            hi: number,
        },
        _ => CertNode {
            bit: u32::try_from(number).unwrap_or(0),
            lo,
            hi,
        },
    }
}

impl Draft {
    /// Changes a node, the root, or nothing, as the seed draws.
    pub fn change(&mut self, seed: u64) {
        let count = self.nodes.len() as u64;
        let known = count.saturating_add(3);
        let kind = drawn(seed, 6);
        if kind == 0 {
            self.root = drawn(seed.wrapping_add(2), known);
        } else if kind < 4 {
            let at = drawn(seed.wrapping_add(3), count) as usize;
            if let Some(node) = self.nodes.get_mut(at) {
                *node = changed_node(*node, seed.wrapping_add(4), known);
            }
        }
    }
}
