//! Laws of rows and schemas, each the contract of a function that does nothing.
ghost use Rattle.std.specs.Prelude.{◌≡◌, ◌<◌, ◌≤◌, ◌+◌, ◌↔◌, ◌⊎◌, ℕ, Some, None, List, length, slice_index_or};
ghost use Rattle.std.specs.List.{All};
ghost use Rattle.geo_base.specs.declared.cell.Cell.{Cell};
ghost use Rattle.geo_base.specs.declared.limits.TheConstants.{MAX_TABLES};
ghost use Rattle.geo_schema.specs.declared.column.ColumnDef.{ColumnDef};
ghost use Rattle.geo_schema.specs.declared.fault.CellFault.{CellFault};
ghost use Rattle.geo_schema.specs.declared.fault.SchemaFault.{SchemaFault};
ghost use Rattle.geo_schema.specs.declared.fault.SchemaFault.TheVariants as fault;
ghost use Rattle.geo_schema.specs.declared.index.IndexDef.{IndexDef};
ghost use Rattle.geo_schema.specs.declared.limits.TheConstants.{FIRST_HIDDEN};
ghost use Rattle.geo_schema.specs.declared.table.TableDef.{TableDef};
ghost use Rattle.geo_schema.specs.Rows.{Suits, IsCause, IsRow, IsRowFault};
ghost use Rattle.geo_schema.specs.Schemas.{Tables, AreTables, IsSchema, IsUniqueAt, IsSchemaFault, IsTableNo, table_at};
ghost use Rattle.geo_schema.specs.Tables.{ArePlaces, IsTable, TakesRows, table_in};
ghost use Rattle.geo_schema.specs.Uniques.{hidden_table, unique_in};
ghost use Rattle.geo_schema.specs.inner.Rows.{row_fault};
ghost use Rattle.geo_schema.specs.inner.Schemas.{schema_fault};

/// The fault of cells that the code finds is none exactly where they are a row of the table, and else the
/// one that they have.
pub fn faultless_cells_are_rows()
    ensures none { (table : TableDef) (cells : List Cell) → (row_fault table cells ≡ None) ↔ IsRow table cells }
    ensures some { (table : TableDef) (cells : List Cell) (why : CellFault) → (row_fault table cells ≡ Some why) ↔ IsRowFault table cells why }
{}

/// A cell suits its column or there is one thing wrong with it, and never both.
pub fn a_cell_suits_or_has_one_fault()
    ensures either { (key : List ℕ) (column : ColumnDef) (place : ℕ) (cell : Cell) → Suits key column place cell ⊎ ((why : CellFault) × IsCause key column place cell why) }
    ensures suits { (key : List ℕ) (column : ColumnDef) (place : ℕ) (cell : Cell) (why : CellFault) → Suits key column place cell → ¬ IsCause key column place cell why }
    ensures one { (key : List ℕ) (column : ColumnDef) (place : ℕ) (cell : Cell) (a b : CellFault) → IsCause key column place cell a → IsCause key column place cell b → a ≡ b }
{}

/// Cells are a row of a table or have one fault, and never both.
pub fn cells_are_a_row_or_have_one_fault()
    ensures either { (table : TableDef) (cells : List Cell) → IsRow table cells ⊎ ((why : CellFault) × IsRowFault table cells why) }
    ensures row { (table : TableDef) (cells : List Cell) (why : CellFault) → IsRow table cells → ¬ IsRowFault table cells why }
    ensures one { (table : TableDef) (cells : List Cell) (a b : CellFault) → IsRowFault table cells a → IsRowFault table cells b → a ≡ b }
{}

/// The fault of tables and uniques that the code finds is none exactly where they are a schema, and else
/// the one that they have.
pub fn faultless_tables_are_schemas()
    ensures none { (tables : Tables) → (schema_fault tables ≡ None) ↔ IsSchema tables }
    ensures some { (tables : Tables) (why : SchemaFault) → (schema_fault tables ≡ Some why) ↔ IsSchemaFault tables why }
{}

/// Tables and uniques are a schema or have one fault, and never both.
pub fn tables_are_a_schema_or_have_one_fault()
    ensures either { (tables : Tables) → IsSchema tables ⊎ ((why : SchemaFault) × IsSchemaFault tables why) }
    ensures schema { (tables : Tables) (why : SchemaFault) → IsSchema tables → ¬ IsSchemaFault tables why }
    ensures one { (tables : Tables) (a b : SchemaFault) → IsSchemaFault tables a → IsSchemaFault tables b → a ≡ b }
{}

/// The numbers of a schema's tables are those of the tables that are shown, from 0 on, and those of the
/// hidden ones, from 64 on; each is that of the table at its place, and each table has what rows need.
pub fn numbers_are_of_tables()
    ensures numbers { (tables : Tables) (number : ℕ) → IsSchema tables →
        IsTableNo tables number ↔ ((number < length tables.shown) ⊎ ((place : ℕ) × (place < length tables.uniques) × (number ≡ FIRST_HIDDEN + place))) }
    ensures shown { (tables : Tables) (number : ℕ) → IsSchema tables → number < length tables.shown → table_at tables number ≡ table_in tables.shown number }
    ensures hidden { (tables : Tables) (place : ℕ) → place < length tables.uniques →
        table_at tables (FIRST_HIDDEN + place) ≡ hidden_table tables.shown (unique_in tables.uniques place) }
    ensures rows { (tables : Tables) (number : ℕ) → IsSchema tables → IsTableNo tables number → TakesRows (table_at tables number) }
{}

/// No two tables of a schema have one name, hidden ones among them.
pub fn names_are_of_one_table()
    ensures { (tables : Tables) (a b : ℕ) → IsSchema tables → IsTableNo tables a → IsTableNo tables b →
        (table_at tables a).name ≡ (table_at tables b).name → a ≡ b }
{}

/// In a table by the rules no two columns and no two indexes have one name, and no place stands twice in
/// the key or in an index.
pub fn nothing_stands_twice()
    ensures columns { (table : TableDef) (a b : ℕ) (d : ColumnDef) → IsTable table → a < length table.columns → b < length table.columns →
        (slice_index_or table.columns a d).name ≡ (slice_index_or table.columns b d).name → a ≡ b }
    ensures indexes { (table : TableDef) (a b : ℕ) (d : IndexDef) → IsTable table → a < length table.indexes → b < length table.indexes →
        (slice_index_or table.indexes a d).name ≡ (slice_index_or table.indexes b d).name → a ≡ b }
    ensures places { (most columns : ℕ) (places : List ℕ) (a b d : ℕ) → ArePlaces most columns places → a < length places → b < length places →
        slice_index_or places a d ≡ slice_index_or places b d → a ≡ b }
{}

/// What stands twice is a fault. Where two columns or two indexes of a table have one name, or a place
/// stands twice in its key or in an index, that table or one before it is a bad one; where two tables have
/// one name and none is bad, a name stands twice; and where nothing is wrong with the tables and a unique
/// breaks a rule, that unique or one before it is a bad one.
pub fn what_stands_twice_is_a_fault()
    ensures columns { (table : TableDef) (a b : ℕ) (d : ColumnDef) → a < b → b < length table.columns →
        (slice_index_or table.columns a d).name ≡ (slice_index_or table.columns b d).name → ¬ IsTable table }
    ensures indexes { (table : TableDef) (a b : ℕ) (d : IndexDef) → a < b → b < length table.indexes →
        (slice_index_or table.indexes a d).name ≡ (slice_index_or table.indexes b d).name → ¬ IsTable table }
    ensures key { (table : TableDef) (a b d : ℕ) → a < b → b < length table.key →
        slice_index_or table.key a d ≡ slice_index_or table.key b d → ¬ IsTable table }
    ensures index_places { (table : TableDef) (k a b d : ℕ) (i : IndexDef) → let index = slice_index_or table.indexes k i in
        k < length table.indexes → a < b → b < length index.columns → slice_index_or index.columns a d ≡ slice_index_or index.columns b d → ¬ IsTable table }
    ensures bad_table { (tables : Tables) (number : ℕ) → length tables.shown ≤ MAX_TABLES → number < length tables.shown → ¬ IsTable (table_in tables.shown number) →
        (first : ℕ) × (first ≤ number) × IsSchemaFault tables (fault.BadTable first) }
    ensures tables { (tables : Tables) (a b : ℕ) → length tables.shown ≤ MAX_TABLES → All IsTable tables.shown → a < b → b < length tables.shown →
        (table_in tables.shown a).name ≡ (table_in tables.shown b).name → (table : TableDef) × IsSchemaFault tables (fault.Twice table.name) }
    ensures uniques { (tables : Tables) (place : ℕ) → AreTables tables.shown → place < length tables.uniques → ¬ IsUniqueAt tables place →
        (first : ℕ) × (first ≤ place) × IsSchemaFault tables (fault.BadUnique first) }
{}
