//! Whether children lead on.

use prefix_tree::Entry;

/// Whether the child is nearer to a plan than the entry: it keeps the bound, and costs more so far or has a lower ring.
fn is_nearer(child: &Entry, entry: Entry) -> bool {
    child.settled
        && child.bound.0 == entry.bound.0
        && (child.cost > entry.cost || (child.cost == entry.cost && child.ring.0 < entry.ring.0))
}

/// Whether one of the children is nearer to a plan than the entry. No clause tells of it: it steers which moves are taken.
pub(crate) fn is_one_nearer(children: &[Entry], entry: Entry) -> bool {
    children.iter().any(|child| is_nearer(child, entry))
}
