ghost use Rattle.std.specs.Prelude.{◌≡◌, ◌≤◌, ◌<◌, ◌⊎◌, None, Some, length, IfOk, IfErr, IfSome, MatchResult};
ghost use Rattle.std.specs.List.{slice_get};
ghost use Rattle.std.specs.Option.{option_copied, is_some};
ghost use Rattle.geo_base.specs.declared.limits.TheConstants.{MAX_TABLES};
ghost use Rattle.geo_schema.specs.declared.limits.TheConstants.{MAX_UNIQUES, FIRST_HIDDEN};
ghost use Rattle.geo_schema.specs.Rows.{IsRow, IsRowFault, key_cells};
ghost use Rattle.geo_schema.specs.Schemas.{IsSchema, IsSchemaFault, IsTableNo, all_of, shown_only, hidden_tables, table_numbered, table_at, number_of};
ghost use Rattle.geo_schema.specs.Tables.{IsTable, TakesRows};
ghost use Rattle.geo_schema.specs.inner.Schemas.{schema_fault};

use crate::alike::first_repeat;
use crate::fault::{CellFault, SchemaFault};
use crate::hidden::hidden_tables;
use crate::limits::FIRST_HIDDEN;
use crate::row_rule::{key_of_row, row_fault};
use crate::table::TableDef;
use crate::table_rule::first_bad_table;
use crate::unique::UniqueDef;
use crate::unique_rule::first_bad_unique;
use geo_base::limits::MAX_TABLES;
use geo_base::{Cell, Duplicate, Key, NoMemory, RowImage, TableNo, Txt, copy_items};
use std::alloc::Global;
use std::marker::Model;

/// The tables of a database, which break no rule of tables and have names of their own, and its uniques,
/// which break none of theirs. Each unique has a hidden table. That of the first has the number
/// [`FIRST_HIDDEN`], and so on.
#[derive(Debug, Drop)]
pub struct Schema {
    shown: Vec<TableDef>,
    uniques: Vec<UniqueDef>,
    hidden: Vec<TableDef>,
}

impl Model for Schema {
    ghost use Rattle.std.specs.Prelude.{◌≡◌};
    ghost use Rattle.geo_schema.specs.Schemas.{Tables, IsSchema, all_of, hidden_tables};

    ghost Value = { Tables };

    ghost view = { λ s. all_of s.shown.items s.uniques.items };

    ghost invariant = { λ s. IsSchema (all_of s.shown.items s.uniques.items) × (s.hidden.items ≡ hidden_tables (all_of s.shown.items s.uniques.items)) };
}

impl Schema {
    /// The schema of these tables, without uniques. Compares the names of each two tables, and within a
    /// table those of each two columns, key places and indexes.
    pub fn new(alloc: Global, tables: Vec<TableDef>) -> Result<Schema, SchemaFault>
        ensures schema { IfOk result (λ s. (s ≡ shown_only tables.items) × IsSchema (shown_only tables.items)) }
        ensures fault { IfErr result (λ e. (e ≡ SchemaFault.NoMemory) ⊎ IsSchemaFault (shown_only tables.items) e) }
    {
        Schema::with_unique(alloc, tables, Vec::new(alloc))
    }

    /// The schema of these tables and uniques. Compares as [`Schema::new`] does, and the name of each
    /// unique with those of all tables, indexes and earlier uniques.
    #[tactic(auto, using(crate::specs::laws::Schemas::is_schema_fault, crate::proofs::KeptRules::columns_kept))]
    pub fn with_unique(
        alloc: Global,
        tables: Vec<TableDef>,
        uniques: Vec<UniqueDef>,
    ) -> Result<Schema, SchemaFault>
        ensures schema { IfOk result (λ s. (s ≡ all_of tables.items uniques.items) × IsSchema (all_of tables.items uniques.items)) }
        ensures fault { IfErr result (λ e. (e ≡ SchemaFault.NoMemory) ⊎ IsSchemaFault (all_of tables.items uniques.items) e) }
    {
        let shown = tables.as_slice();
        let lines = uniques.as_slice();
        faultless(alloc, shown, lines)?;
        let hidden = hidden_tables(alloc, shown, lines)?;
        Ok(Schema {
            shown: tables,
            uniques,
            hidden,
        })
    }

    /// The table with the number, also a hidden one.
    #[tactic(auto, using(crate::specs::laws::Numbers::from_shown, crate::specs::laws::Numbers::from_hidden, crate::specs::laws::Numbers::rows_got, crate::specs::laws::Numbers::rules_got))]
    pub fn table(&self, no: TableNo) -> Option<&TableDef>
        ensures table { option_copied result ≡ table_numbered self.now no }
        ensures rows { IfSome result (λ table. TakesRows table.now) }
        ensures shown { no < FIRST_HIDDEN → IfSome result (λ table. IsTable table.now) }
        ensures schema { IsSchema self.now }
    {
        if no < FIRST_HIDDEN {
            self.shown_at(no)
        } else {
            self.hidden_at(no - FIRST_HIDDEN)
        }
    }

    #[tactic(auto, using(crate::specs::laws::Numbers::shown_got))]
    fn shown_at(&self, place: u8) -> Option<&TableDef>
        ensures table { option_copied result ≡ slice_get self.now.shown place }
        ensures rules { IfSome result (λ table. IsTable table.now) }
        ensures schema { IsSchema self.now }
    {
        item_at(self.shown.as_slice(), place)
    }

    fn hidden_at(&self, place: u8) -> Option<&TableDef>
        ensures table { option_copied result ≡ slice_get (hidden_tables self.now) place }
        ensures rows { IfSome result (λ table. TakesRows table.now) }
        ensures schema { IsSchema self.now }
    {
        item_at(self.hidden.as_slice(), place)
    }

    /// Whether there is a table with the number, be it a hidden one.
    pub fn has_table(&self, no: TableNo) -> bool
        ensures { result ≡ is_some (table_numbered self.now no) }
    {
        self.table(no).is_some()
    }

    #[tactic(auto, using(crate::specs::laws::Numbers::takes_rows, crate::specs::laws::Numbers::table_is))]
    fn table_at(&self, no: TableNo) -> &TableDef
        requires { IsTableNo self.now no }
        ensures table { result.now ≡ table_at self.now no }
        ensures rows { TakesRows result.now }
    {
        self.table(no).unwrap()
    }

    /// The number of the table with the name, of those that are shown. Compares it with each one's.
    #[tactic(auto, using(crate::specs::laws::Rules::few_tables))]
    pub fn find(&self, name: &Txt) -> Option<TableNo>
        ensures { result ≡ number_of self.now.shown name.now }
    {
        let place = place_of(self.shown.as_slice(), name)?;
        Some(place as TableNo)
    }

    /// How many tables are shown. Hidden ones are left out.
    #[tactic(auto, using(crate::specs::laws::Rules::few_tables))]
    pub fn count(&self) -> u8
        ensures count { result ≡ length self.now.shown }
        ensures few { length self.now.shown ≤ MAX_TABLES }
        ensures schema { IsSchema self.now }
    {
        self.shown.len() as u8
    }

    /// The uniques, of which each has the hidden table whose number is [`FIRST_HIDDEN`] and its place.
    #[tactic(auto, using(crate::specs::laws::Rules::few_uniques))]
    pub fn uniques(&self) -> &[UniqueDef]
        ensures uniques { result.now ≡ self.now.uniques }
        ensures few { length self.now.uniques ≤ MAX_UNIQUES }
        ensures schema { IsSchema self.now }
    {
        self.uniques.as_slice()
    }

    /// The key of a row that fits the table.
    pub fn key_of(&self, alloc: Global, table: TableNo, row: &RowImage) -> Result<Key, NoMemory>
        requires table { IsTableNo self.now table }
        requires row { IsRow (table_at self.now table) row.now }
        ensures { IfOk result (λ key. key ≡ key_cells (table_at self.now table) row.now) }
    {
        key_of_row(alloc, self.table_at(table), row.cells())
    }

    /// Whether the cells are a row of the table, and else which column is at fault first and why. Takes
    /// a step for each cell and key place.
    #[tactic(auto, using(crate::specs::laws::Fits::row_fits, crate::specs::laws::Fits::is_row_fault))]
    pub fn check_row(&self, table: TableNo, cells: &[Cell]) -> Result<(), CellFault>
        requires { IsTableNo self.now table }
        ensures row { IfOk result (λ _. IsRow (table_at self.now table) cells.now) }
        ensures fault { IfErr result (λ e. IsRowFault (table_at self.now table) cells.now e) }
    {
        match row_fault(self.table_at(table), cells) {
            Some(fault) => Err(fault),
            None => Ok(()),
        }
    }
}

impl Duplicate for Schema {
    fn copy(&self, alloc: Global) -> Result<Schema, NoMemory> {
        let shown = copy_items(alloc, self.shown.as_slice())?;
        let uniques = copy_items(alloc, self.uniques.as_slice())?;
        let hidden = copy_items(alloc, self.hidden.as_slice())?;
        Ok(Schema {
            shown,
            uniques,
            hidden,
        })
    }
}

/// The table at the place, if there is one.
fn item_at(tables: &[TableDef], place: u8) -> Option<&TableDef>
    ensures { option_copied result ≡ slice_get tables.now place }
{
    tables.get(place as usize)
}

/// The place of the first table with the name.
fn place_of(tables: &[TableDef], name: &Txt) -> Option<usize>
    ensures place { result ≡ number_of tables.now name.now }
    ensures within { IfSome result (λ place. place < length tables.now) }
{
    tables.iter().position(|table| table.name == *name)
}

/// Whether the tables and uniques are those of a schema, and else why not.
#[tactic(auto, unfolding(crate::specs::inner::Schemas::schema_fault))]
fn faultless(alloc: Global, tables: &[TableDef], uniques: &[UniqueDef]) -> Result<(), SchemaFault>
    ensures { MatchResult result
        (λ _. schema_fault (all_of tables.now uniques.now) ≡ None)
        (λ e. (e ≡ SchemaFault.NoMemory) ⊎ (schema_fault (all_of tables.now uniques.now) ≡ Some e)) }
{
    if tables.len() > MAX_TABLES {
        return Err(SchemaFault::TooManyTables);
    }
    if let Some(place) = first_bad_table(tables) {
        return Err(SchemaFault::BadTable(place as TableNo));
    }
    if let Some(table) = first_repeat(tables) {
        return Err(SchemaFault::Twice(table.name.copy(alloc)?));
    }
    if let Some(place) = first_bad_unique(tables, uniques) {
        return Err(SchemaFault::BadUnique(place as u8));
    }
    Ok(())
}
