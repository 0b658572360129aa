//! Lists of any values: their equality, their order, their copies, and the items that they give back.
use crate::orders::{LINES, out_of_order};
use crate::words::cells_of;
use geo_base::{Cell, Duplicate, Many};
use std::alloc::Global;
use std::test::Fail;

/// Lists of bytes, rising: item by item, and a list that begins another before it.
const BYTES: [&[u8]; 9] = [
    &[],
    &[0],
    &[0, 0],
    &[0, 255],
    &[1],
    &[1, 0, 0],
    &[1, 1],
    &[10],
    &[255],
];

fn lists_of_bytes(alloc: Global) -> Result<Vec<Many<u8>>, Fail> {
    let mut lists = Vec::new(alloc);
    for bytes in BYTES {
        lists.push(Many::new(Vec::from_slice(alloc, bytes)?))?;
    }
    Ok(lists)
}

/// The list of no cell, and those of the lines.
fn lists_of_cells(alloc: Global) -> Result<Vec<Many<Cell>>, Fail> {
    let mut lists = Vec::new(alloc);
    lists.push(Many::new(Vec::new(alloc)))?;
    for words in LINES {
        lists.push(Many::new(cells_of(alloc, words)?))?;
    }
    Ok(lists)
}

#[test]
fn lists_rise_item_by_item(rt: HostRuntime) -> Result<(), Fail> {
    let of_bytes = out_of_order(&lists_of_bytes(rt.alloc())?);
    let of_cells = out_of_order(&lists_of_cells(rt.alloc())?);
    assert_eq!(rt; (of_bytes, of_cells), (None, None));
    Ok(())
}

/// Whether a copy of each list equals it, and has its items and gives them back.
fn are_copied<T: Duplicate + Eq + Drop>(alloc: Global, lists: &[Many<T>]) -> Result<bool, Fail> {
    for list in lists {
        let copy = list.copy(alloc)?;
        if copy != *list || copy.items() != list.items() {
            return Ok(false);
        }
        if copy.into_vec().as_slice() != list.items() {
            return Ok(false);
        }
    }
    Ok(true)
}

#[test]
fn lists_are_copied(rt: HostRuntime) -> Result<(), Fail> {
    let bytes = are_copied(rt.alloc(), &lists_of_bytes(rt.alloc())?)?;
    let cells = are_copied(rt.alloc(), &lists_of_cells(rt.alloc())?)?;
    assert_eq!(rt; (bytes, cells), (true, true));
    Ok(())
}
