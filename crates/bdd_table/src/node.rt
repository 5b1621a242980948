//! The nodes.

ghost use Rattle.std.specs.Prelude.{◌≡◌, ℕ, ◌+◌, ◌*◌, ◌^◌, ◌<◌};
ghost use Rattle.std.specs.Hash as fed;

use std::hash::{Hash, Hasher};

/// A node: it means what `hi` means where its level is true, else what `lo` means. The children are places in the
/// table.
#[derive(Clone, Copy, Debug, PartialEq, Eq)]
pub struct Node {
    pub level: u32,
    pub lo: u32,
    pub hi: u32,
}

// Two words: the table's time goes into its look-ups.
impl Hash for Node {
    ghost use Rattle.std.specs.Prelude.{ℕ, ◌+◌, ◌*◌, ◌^◌, ◌++◌};
    ghost use Rattle.std.specs.Hash as fed;
    ghost use Rattle.std.proofs.Common.{ap};
    ghost use Rattle.bdd_table.specs.declared.node.Node.{Node};
    ghost use Rattle.bdd_table.specs.NodeHash.{node_eq_same};

    ghost hash_input = { λ n. fed.u64 (n.hi * 2 ^ 32 + n.lo) ++ fed.u64 n.level };

    ghost respects_eq = { λ x y e. ap (λ (n : Node). fed.u64 (n.hi * 2 ^ 32 + n.lo) ++ fed.u64 n.level)
        (node_eq_same x y e) };

    fn hash<H: Hasher>(&self, state: &mut H) {
        state.write_u64(self.hi as u64 * (1 << 32) + self.lo as u64);
        state.write_u64(self.level as u64);
    }
}
