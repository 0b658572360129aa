//! Whether a table keeps the rules of tables.
ghost use Rattle.std.specs.Prelude.{◌≡◌, ◌<◌, IfSome, length, nat_lt, position};
ghost use Rattle.std.specs.List.{list_all};
ghost use Rattle.geo_schema.specs.inner.Tables.{is_name, is_column, are_columns, are_places, is_index, are_indexes, is_table, is_bad_table};

use crate::alike::first_repeat;
use crate::column::{ColumnDef, Kind};
use crate::index::IndexDef;
use crate::table::TableDef;
use geo_base::Txt;
use geo_base::limits::{
    MAX_COLUMNS, MAX_INDEX_COLUMNS, MAX_INDEXES, MAX_KEY_CELLS, MAX_NAME_BYTES, MAX_TEXT_BYTES,
};

pub(crate) fn is_name(name: &Txt) -> bool
    ensures { result ≡ is_name name.now }
{
    let name = name.text();
    !name.is_empty() && name.len() <= MAX_NAME_BYTES
}

#[tactic(auto, unfolding(crate::specs::inner::Tables::is_column))]
fn is_column(column: &ColumnDef) -> bool
    ensures { result ≡ is_column column.now }
{
    let takes = match column.kind {
        Kind::Text { max } => max as usize <= MAX_TEXT_BYTES,
        Kind::Int | Kind::Truth => true,
    };
    is_name(&column.name) && takes
}

fn each_is_column(columns: &[ColumnDef]) -> bool
    ensures { result ≡ list_all is_column columns.now }
{
    columns.iter().all(|column| is_column(column))
}

#[tactic(auto, unfolding(crate::specs::inner::Tables::are_columns))]
fn are_columns(columns: &[ColumnDef]) -> bool
    ensures { result ≡ are_columns columns.now }
{
    !columns.is_empty()
        && columns.len() <= MAX_COLUMNS
        && each_is_column(columns)
        && first_repeat(columns).is_none()
}

fn each_is_place(columns: usize, places: &[u8]) -> bool
    ensures { result ≡ list_all (λ place. nat_lt place columns) places.now }
{
    places.iter().all(|place| (*place as usize) < columns)
}

#[tactic(auto, unfolding(crate::specs::inner::Tables::are_places))]
pub(crate) fn are_places(most: usize, columns: usize, places: &[u8]) -> bool
    ensures { result ≡ are_places most columns places.now }
{
    !places.is_empty()
        && places.len() <= most
        && each_is_place(columns, places)
        && first_repeat(places).is_none()
}

#[tactic(auto, unfolding(crate::specs::inner::Tables::is_index))]
fn is_index(columns: usize, index: &IndexDef) -> bool
    ensures { result ≡ is_index columns index.now }
{
    is_name(&index.name) && are_places(MAX_INDEX_COLUMNS, columns, index.columns.items())
}

fn each_is_index(columns: usize, indexes: &[IndexDef]) -> bool
    ensures { result ≡ list_all (is_index columns) indexes.now }
{
    indexes.iter().all(|index| is_index(columns, index))
}

#[tactic(auto, unfolding(crate::specs::inner::Tables::are_indexes))]
fn are_indexes(columns: usize, indexes: &[IndexDef]) -> bool
    ensures { result ≡ are_indexes columns indexes.now }
{
    indexes.len() <= MAX_INDEXES
        && each_is_index(columns, indexes)
        && first_repeat(indexes).is_none()
}

#[tactic(auto, unfolding(crate::specs::inner::Tables::is_table))]
fn is_table(table: &TableDef) -> bool
    ensures { result ≡ is_table table.now }
{
    let columns = table.columns.items().len();
    is_name(&table.name)
        && are_columns(table.columns.items())
        && are_places(MAX_KEY_CELLS, columns, table.key.items())
        && are_indexes(columns, table.indexes.items())
}

/// The place of the first table that breaks a rule.
pub(crate) fn first_bad_table(tables: &[TableDef]) -> Option<usize>
    ensures place { result ≡ position is_bad_table tables.now }
    ensures within { IfSome result (λ place. place < length tables.now) }
{
    tables.iter().position(|table| !is_table(table))
}
