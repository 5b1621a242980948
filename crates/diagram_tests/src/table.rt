//! Worked rows.

use bdd_table::{FALSE, Id, TRUE, Table};
use std::process::Abort;
use std::test::Fail;

/// The node, if its children are there and on later levels.
fn node(table: &mut Table, level: u32, lo: Id, hi: Id) -> Result<Id, Fail> {
    let known = table.held() + 2;
    if lo >= known || hi >= known || level >= table.level(lo) || level >= table.level(hi) {
        return Err(Fail::from("no such children"));
    }
    Ok(table.node(level, lo, hi)?)
}

/// The Id of the root after a collection for it alone.
fn collect(table: &mut Table, root: Id) -> Result<Id, Fail> {
    if root >= table.held() + 2 {
        return Err(Fail::from("no such root"));
    }
    let mut roots = [root];
    table.collect(&mut roots)?;
    Ok(roots[0])
}

fn check_names(rt: &impl Abort, table: &mut Table) -> Result<(), Fail> {
    assert_eq!(rt; node(table, 0, FALSE, TRUE)?, 2);
    assert_eq!(rt; node(table, 0, FALSE, TRUE)?, 2);
    assert_eq!(rt; node(table, 1, TRUE, TRUE)?, TRUE);
    assert_eq!(rt; node(table, 1, FALSE, TRUE)?, 3);
    assert_eq!(rt; node(table, 2, FALSE, TRUE)?, 4);
    assert_eq!(rt; table.held(), 3);
    Ok(())
}

#[test]
fn names_each_node_once(rt: HostRuntime) -> Result<(), Fail> {
    let mut table = Table::new(rt.alloc())?;
    check_names(&rt, &mut table)
}

/// The level and the children, if the Id is known.
fn parts(table: &Table, id: Id) -> Result<(u32, Id, Id), Fail> {
    if id >= table.held() + 2 {
        return Err(Fail::from("not known"));
    }
    Ok((table.level(id), table.lo(id), table.hi(id)))
}

fn check_root(rt: &impl Abort, table: &mut Table) -> Result<(), Fail> {
    node(table, 0, FALSE, TRUE)?;
    node(table, 1, FALSE, TRUE)?;
    node(table, 2, FALSE, TRUE)?;
    assert_eq!(rt; collect(table, 3)?, 2);
    assert_eq!(rt; table.held(), 1);
    assert_eq!(rt; parts(table, 2)?, (1, FALSE, TRUE));
    assert_eq!(rt; node(table, 2, FALSE, TRUE)?, 3);
    Ok(())
}

#[test]
fn keeps_what_the_root_reaches(rt: HostRuntime) -> Result<(), Fail> {
    let mut table = Table::new(rt.alloc())?;
    check_root(&rt, &mut table)
}

fn check_children(rt: &impl Abort, table: &mut Table) -> Result<(), Fail> {
    node(table, 5, TRUE, FALSE)?;
    let below = node(table, 4, FALSE, TRUE)?;
    let above = node(table, 3, TRUE, below)?;
    node(table, 2, FALSE, above)?;
    assert_eq!(rt; collect(table, above)?, 3);
    assert_eq!(rt; table.held(), 2);
    assert_eq!(rt; parts(table, 3)?, (3, TRUE, 2));
    assert_eq!(rt; parts(table, 2)?, (4, FALSE, TRUE));
    assert!(rt; table.same(FALSE, FALSE) && !table.same(FALSE, TRUE));
    Ok(())
}

#[test]
fn keeps_the_children_of_a_root(rt: HostRuntime) -> Result<(), Fail> {
    let mut table = Table::new(rt.alloc())?;
    check_children(&rt, &mut table)
}
