//! The roots of a list of relations.

ghost use Rattle.std.specs.Prelude.{◌≡◌, ◌<◌, ◌≤◌, ◌+◌, ◌++◌, ℕ, List, length, slice_index, slice_index_or, OnOk, OnErr};
ghost use Rattle.transitions.specs.declared.relations.Relation.{Relation as RelationOf};
ghost use Rattle.trans_merge.specs.Roots.{roots_in, with_new_root, IsPushedInPart};

use bdd_table::Id;
use symk_task::Memory;
use transitions::Relation;

/// Puts the roots of the relations behind those in the list.
pub fn push_roots(relations: &[Relation], roots: &mut Vec<Id>) -> Result<(), Memory>
    ensures pushed { OnOk result (roots.new.items ≡ roots.old.items ++ roots_in relations.now) }
    ensures err { OnErr result (IsPushedInPart (roots_in relations.now) roots.old.items roots.new.items) }
{
    for relation in relations {
        roots.push(relation.root)?;
    }
    Ok(())
}

/// Gives each relation the root at its place, from this one on.
pub fn put_roots(relations: &mut [Relation], roots: &[Id], from: usize)
    requires { from + length relations.old ≤ length roots.now }
    ensures { (i : ℕ) (d : RelationOf) → i < length relations.old
        → slice_index_or relations.new i d ≡ with_new_root (slice_index_or relations.old i d)
        (slice_index roots.now (from + i)) }
{
    let mut place = from;
    for relation in relations.iter_mut() {
        relation.root = roots[place];
        place += 1;
    }
}
