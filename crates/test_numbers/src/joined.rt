//! All candidates of small tables, worked out by hand.

use ev_join::{JoinFault, Joined, Row, Table, join};
use fm_bytes::Items;
use std::alloc::Global;
use std::process::Abort;
use std::test::Fail;

fn row(alloc: Global, values: &[u32], path: u32) -> Result<Row, Fail> {
    let values = Items::new(Vec::from_slice(alloc, values)?);
    Ok(Row { values, path })
}

/// The rows 2, 0 and 1 of the iterator 0.
fn ones(alloc: Global) -> Result<Table, Fail> {
    let mut rows = Vec::new(alloc);
    rows.push(row(alloc, &[2], 12)?)?;
    rows.push(row(alloc, &[0], 10)?)?;
    rows.push(row(alloc, &[1], 11)?)?;
    Ok(Table::new(Vec::from_array(alloc, [0])?, rows)?)
}

/// The rows (2, 5), (0, 7), (2, 5) and (3, 1) of the iterators 0 and 1.
fn pairs(alloc: Global) -> Result<Table, Fail> {
    let mut rows = Vec::new(alloc);
    rows.push(row(alloc, &[2, 5], 20)?)?;
    rows.push(row(alloc, &[0, 7], 21)?)?;
    rows.push(row(alloc, &[2, 5], 22)?)?;
    rows.push(row(alloc, &[3, 1], 23)?)?;
    Ok(Table::new(Vec::from_array(alloc, [0, 1])?, rows)?)
}

fn both(alloc: Global) -> Result<Vec<Table>, Fail> {
    let mut tables = Vec::new(alloc);
    tables.push(ones(alloc)?)?;
    tables.push(pairs(alloc)?)?;
    Ok(tables)
}

fn all_of(alloc: Global, limit: u64) -> Result<Joined, Fail> {
    let tables = both(alloc)?;
    if tables.is_empty() {
        return Err(Fail::new("no table"));
    }
    match join(alloc, tables.as_slice(), 2, limit) {
        Ok(joined) => Ok(joined),
        Err(JoinFault::Links) => Err(Fail::new("links")),
        Err(JoinFault::NoMemory) => Err(Fail::new("memory")),
    }
}

#[test]
fn candidates_have_a_row_of_each_table(rt: HostRuntime) -> Result<(), Fail> {
    let joined = all_of(rt.alloc(), 5)?;
    let bindings = joined.bindings.as_slice();
    assert_eq!(rt; bindings.len(), 2);
    assert_eq!(rt; bindings[0].as_slice(), [0, 7].as_slice());
    assert_eq!(rt; bindings[1].as_slice(), [2, 5].as_slice());
    assert_eq!(rt; joined.left, 0);
    Ok(())
}

#[test]
fn links_past_the_limit_are_refused(rt: HostRuntime) -> Result<(), Fail> {
    let alloc = rt.alloc();
    let tables = both(alloc)?;
    if tables.is_empty() {
        return Err(Fail::new("no table"));
    }
    let refused = match join(alloc, tables.as_slice(), 2, 4) {
        Err(JoinFault::Links) => true,
        _ => false,
    };
    assert!(rt; refused);
    Ok(())
}

#[test]
fn rows_agree_with_a_binding(rt: HostRuntime) -> Result<(), Fail> {
    let table = pairs(rt.alloc())?;
    assert!(rt; table.has_row());
    assert_eq!(rt; table.rows_at(&[2, 5]).len(), 2);
    assert_eq!(rt; table.rows_at(&[2, 6]).len(), 0);
    assert_eq!(rt; table.rows_at(&[3, 1]).len(), 1);
    Ok(())
}

/// How many candidates there are of a table of no iterators with so many rows.
fn whole(alloc: Global, count: u32) -> Result<usize, Fail> {
    let mut rows = Vec::new(alloc);
    for path in 0..count {
        rows.push(row(alloc, &[], path)?)?;
    }
    let table = Table::new(Vec::new(alloc), rows)?;
    match join(alloc, &[table], 0, 9) {
        Ok(joined) => Ok(joined.bindings.len()),
        Err(_) => Err(Fail::new("no join")),
    }
}

#[test]
fn no_iterators_have_one_binding_where_there_are_rows(rt: HostRuntime) -> Result<(), Fail> {
    assert_eq!(rt; whole(rt.alloc(), 0)?, 0);
    assert_eq!(rt; whole(rt.alloc(), 2)?, 1);
    Ok(())
}
