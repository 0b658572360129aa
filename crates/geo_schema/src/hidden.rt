//! The hidden tables of uniques.
ghost use Rattle.std.specs.Prelude.{◌≡◌, ◌<◌, ◌++◌, length, map, IfOk, OnOk};
ghost use Rattle.std.specs.List.{All, range_with_len};
ghost use Rattle.geo_schema.specs.Tables.{IsTable};
ghost use Rattle.geo_schema.specs.Uniques.{HasColumns, hidden_column, hidden_columns, hidden_table};

use crate::column::{ColumnDef, ColumnList, PlaceList};
use crate::index::IndexList;
use crate::table::TableDef;
use crate::unique::UniqueDef;
use crate::unique_rule::table_in;
use geo_base::{Duplicate, NoMemory};
use std::alloc::Global;

/// The column of a hidden table that stands for another table's.
fn hidden_column(alloc: Global, column: &ColumnDef) -> Result<ColumnDef, NoMemory>
    ensures { IfOk result (λ hidden. hidden ≡ hidden_column column.now) }
{
    Ok(ColumnDef {
        name: column.name.copy(alloc)?,
        kind: column.kind,
        not_null: true,
    })
}

/// Adds the columns of a hidden table that stand for those at the places.
fn add_columns(
    alloc: Global,
    columns: &[ColumnDef],
    places: &[u8],
    out: &mut Vec<ColumnDef>,
) -> Result<(), NoMemory>
    requires { All (λ place. place < length columns.now) places.now }
    ensures { OnOk result (out.new.items ≡ out.old.items ++ hidden_columns columns.now places.now) }
{
    for place in places {
        out.push(hidden_column(alloc, &columns[*place as usize])?)?;
    }
    Ok(())
}

/// The first places of a table, so many of them.
#[tactic(auto, using(crate::proofs::Search::one_more))]
fn first_places(alloc: Global, count: u8) -> Result<Vec<u8>, NoMemory>
    ensures { IfOk result (λ places. places.items ≡ range_with_len 0 count) }
{
    let mut places = Vec::with_capacity(alloc, count as usize)?;
    for place in 0..count {
        places.push(place)?;
    }
    Ok(places)
}

fn hidden_table(
    alloc: Global,
    tables: &[TableDef],
    unique: &UniqueDef,
) -> Result<TableDef, NoMemory>
    requires rules { All IsTable tables.now }
    requires columns { HasColumns tables.now unique.now }
    ensures { IfOk result (λ hidden. hidden ≡ hidden_table tables.now unique.now) }
{
    let table = table_in(tables, unique.table);
    let places = unique.columns.items();
    let mut columns = Vec::new(alloc);
    add_columns(alloc, table.columns.items(), places, &mut columns)?;
    add_columns(
        alloc,
        table.columns.items(),
        table.key.items(),
        &mut columns,
    )?;
    Ok(TableDef {
        name: unique.name.copy(alloc)?,
        columns: ColumnList::new(columns),
        key: PlaceList::new(first_places(alloc, places.len() as u8)?),
        indexes: IndexList::new(Vec::new(alloc)),
    })
}

/// The hidden table of each unique, in their order.
pub(crate) fn hidden_tables(
    alloc: Global,
    tables: &[TableDef],
    uniques: &[UniqueDef],
) -> Result<Vec<TableDef>, NoMemory>
    requires rules { All IsTable tables.now }
    requires columns { All (HasColumns tables.now) uniques.now }
    ensures { IfOk result (λ hidden. hidden.items ≡ map (hidden_table tables.now) uniques.now) }
{
    let mut hidden = Vec::new(alloc);
    for unique in uniques {
        hidden.push(hidden_table(alloc, tables, unique)?)?;
    }
    Ok(hidden)
}
