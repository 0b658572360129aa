//! Whether a unique keeps the rules of uniques.
ghost use Rattle.std.specs.Prelude.{◌≡◌, ◌<◌, ◌≤◌, not, IfSome, length};
ghost use Rattle.std.specs.List.{list_all};
ghost use Rattle.geo_base.specs.Order.{text_eq};
ghost use Rattle.geo_schema.specs.declared.limits.TheConstants.{MAX_UNIQUES};
ghost use Rattle.geo_schema.specs.Tables.{table_in};
ghost use Rattle.geo_schema.specs.inner.Uniques.{is_not_of, is_free, has_columns, is_unique, first_bad_unique};

use crate::index::IndexDef;
use crate::limits::{MAX_UNIQUE_COLUMNS, MAX_UNIQUES};
use crate::table::TableDef;
use crate::table_rule::{are_places, is_name};
use crate::unique::UniqueDef;
use geo_base::{TableNo, Txt};

fn is_not_of_indexes(name: &Txt, indexes: &[IndexDef]) -> bool
    ensures { result ≡ list_all (λ index. not (text_eq index.name name.now)) indexes.now }
{
    indexes.iter().all(|index| !(index.name == *name))
}

#[tactic(auto, unfolding(crate::specs::inner::Uniques::is_not_of))]
fn is_not_of(name: &Txt, table: &TableDef) -> bool
    ensures { result ≡ is_not_of name.now table.now }
{
    !(table.name == *name) && is_not_of_indexes(name, table.indexes.items())
}

fn is_not_of_tables(name: &Txt, tables: &[TableDef]) -> bool
    ensures { result ≡ list_all (is_not_of name.now) tables.now }
{
    tables.iter().all(|table| is_not_of(name, table))
}

fn is_not_of_uniques(name: &Txt, uniques: &[UniqueDef]) -> bool
    ensures { result ≡ list_all (λ unique. not (text_eq unique.name name.now)) uniques.now }
{
    uniques.iter().all(|unique| !(unique.name == *name))
}

#[tactic(auto, unfolding(crate::specs::inner::Uniques::is_free))]
fn is_free(tables: &[TableDef], uniques: &[UniqueDef], name: &Txt) -> bool
    ensures { result ≡ is_free tables.now uniques.now name.now }
{
    is_not_of_tables(name, tables) && is_not_of_uniques(name, uniques)
}

/// The table at the place.
pub(crate) fn table_in(tables: &[TableDef], place: TableNo) -> &TableDef
    requires { place < length tables.now }
    ensures { result.now ≡ table_in tables.now place }
{
    &tables[place as usize]
}

#[tactic(auto, unfolding(crate::specs::inner::Uniques::has_columns))]
fn has_columns(tables: &[TableDef], unique: &UniqueDef) -> bool
    ensures { result ≡ has_columns tables.now unique.now }
{
    if unique.table as usize >= tables.len() {
        return false;
    }
    let columns = table_in(tables, unique.table).columns.items().len();
    are_places(MAX_UNIQUE_COLUMNS, columns, unique.columns.items())
}

#[tactic(auto, unfolding(crate::specs::inner::Uniques::is_unique))]
fn is_unique(tables: &[TableDef], before: &[UniqueDef], unique: &UniqueDef) -> bool
    ensures { result ≡ is_unique tables.now before.now unique.now }
{
    before.len() < MAX_UNIQUES
        && is_name(&unique.name)
        && is_free(tables, before, &unique.name)
        && has_columns(tables, unique)
}

/// The place of the first unique that breaks a rule. It is at most that of the first past the limit.
/// Compares the name of each unique with those of all tables, indexes and earlier uniques.
pub(crate) fn first_bad_unique(tables: &[TableDef], uniques: &[UniqueDef]) -> Option<usize>
    ensures place { result ≡ first_bad_unique tables.now uniques.now }
    ensures few { IfSome result (λ place. place ≤ MAX_UNIQUES) }
{
    for (place, unique) in uniques.iter().enumerate() {
        if !is_unique(tables, &uniques[..place], unique) {
            return Some(place);
        }
    }
    None
}
