//! Laws of statements that write, each the contract of a function that does nothing.
ghost use Rattle.std.specs.Prelude.{◌≡◌, ◌≢◌, ◌↔◌, ℕ, List, [], All, IfErr, Result, Ok, Err};
ghost use Rattle.geo_base.specs.declared.cell.Cell.{Cell};
ghost use Rattle.geo_base.specs.declared.row_id.RowId.{RowId};
ghost use Rattle.geo_base.specs.declared.row_image.RowImage.{RowImage};
ghost use Rattle.geo_schema.specs.declared.fault.CellFault.{CellFault};
ghost use Rattle.geo_schema.specs.declared.table.TableDef.{TableDef};
ghost use Rattle.geo_schema.specs.Rows.{IsRow, IsRowFault};
ghost use Rattle.geo_schema.specs.Schemas.{IsSchema, Tables};
ghost use Rattle.row_source.specs.declared.fault.ExecFault.{ExecFault};
ghost use Rattle.row_source.specs.declared.fault.ExecFault.TheVariants as fault;
ghost use Rattle.row_source.specs.Sources.{AreRowsOf, Fits};
ghost use Rattle.sql_bind.specs.declared.bound.BoundDelete.{BoundDelete};
ghost use Rattle.sql_bind.specs.declared.bound.BoundInsert.{BoundInsert};
ghost use Rattle.sql_bind.specs.declared.bound.BoundSelect.{BoundSelect};
ghost use Rattle.sql_bind.specs.declared.bound.BoundUpdate.{BoundUpdate};
ghost use Rattle.sql_bind.specs.Names.{column_types};
ghost use Rattle.sql_bind.specs.Sound.{IsSoundInsert, IsSoundUpdate};
ghost use Rattle.sql_exec.specs.Answers.{answer_of};
ghost use Rattle.sql_exec.specs.Changes.{AreChangesOfRows, ArePutsOfNewRows, AreTouches, CanBeApplied, IsFaultFor, IsOwnNet, IsPut, IsSoundChange};
ghost use Rattle.sql_exec.specs.Effects.{IsDone, IsLocked, IsOfStatement, IsRefused, delete_changes, fitting, insert_changes, lock_changes, locked_table, touches_in, update_changes};
ghost use Rattle.sql_expr.specs.Rows.{HasTypes};
ghost use Rattle.write_set.specs.declared.change.Change.{Change};
ghost use Rattle.write_set.specs.declared.change.Change.TheVariants.{Remove};
ghost use Rattle.write_set.specs.declared.row_change.RowChange.{RowChange};
ghost use Rattle.write_set.specs.Net.{IsNet, TouchesKnown};
ghost use Rattle.write_set.specs.Overlay.{Table, overlay};
ghost use Rattle.write_set.specs.Sets.{ChangeOfRow, Rises};

use sql_bind::bound_values_are_of_their_columns_types;
use sql_expr::want_of_memory_is_no_fault;

/// A statement tests cells by the rule of rows. Cells of the columns' types, one for each column, fit exactly where
/// they are a row of the table; and their fault names the column of the first that doesn't suit its column.
pub fn fitting_is_the_rule_of_rows()
    ensures rows { (table : TableDef) (cells : List Cell) → HasTypes (column_types table.columns) cells →
        (fitting table cells ≡ Ok cells) ↔ IsRow table cells }
    ensures faults { (table : TableDef) (cells : List Cell) (e : ExecFault) → HasTypes (column_types table.columns) cells →
        (fitting table cells ≡ Err e) ↔ ((why : CellFault) × IsRowFault table cells why × IsFaultFor table why e) }
{}

/// What a sound INSERT puts are rows of its table that aren't there, none of them twice.
pub fn inserted_rows_fit()
    ensures fit { (tables : Tables) (insert : BoundInsert) (base : Table) (own : List ChangeOfRow) (changes : List RowChange) →
        IsSchema tables → IsSoundInsert tables insert → insert_changes tables insert base own ≡ Ok changes →
        ArePutsOfNewRows tables insert.table base own changes }
{
    bound_values_are_of_their_columns_types();
}

/// What a sound UPDATE puts are rows of its table in the place of those that are there, each with its key.
pub fn updated_rows_fit()
    ensures fit { (tables : Tables) (update : BoundUpdate) (base : Table) (own : List ChangeOfRow) (changes : List RowChange) →
        IsSoundUpdate tables update → AreRowsOf tables (overlay base own) → update_changes tables update base own ≡ Ok changes →
        AreChangesOfRows IsPut tables update.table base own changes }
{
    bound_values_are_of_their_columns_types();
}

/// What a DELETE removes are rows of its table that are there.
pub fn deleted_rows_are_there()
    ensures there { (tables : Tables) (delete : BoundDelete) (base : Table) (own : List ChangeOfRow) (changes : List RowChange) →
        Rises (overlay base own) → delete_changes delete base own ≡ Ok changes →
        AreChangesOfRows (λ (change : Change). change ≡ Remove) tables delete.table base own changes }
{}

/// What FOR UPDATE touches are rows of its table that are there. The transaction's net lacks them and the base has
/// them, so that a net may take the touches.
pub fn touched_rows_are_there()
    ensures there { (tables : Tables) (query : BoundSelect) (base : Table) (own : List ChangeOfRow) (lines : List (List Cell)) (touches : List RowChange) →
        Rises base → Rises own → lock_changes query base own ≡ Ok (lines, touches) →
        AreTouches tables (locked_table query.tables) base own touches }
    ensures taken { (query : BoundSelect) (base : Table) (own : List ChangeOfRow) (lines : List (List Cell)) (touches : List RowChange) →
        Rises base → Rises own → lock_changes query base own ≡ Ok (lines, touches) → TouchesKnown own touches }
{}

/// Rows of a schema stay rows of it under the net of sound changes, as those of statements are: what a statement
/// leaves, the next one may work on.
pub fn rows_stay_rows()
    ensures stay { (tables : Tables) (base : Table) (own : List ChangeOfRow) (changes : List RowChange) (net : List ChangeOfRow) →
        Rises base → Rises own → AreRowsOf tables (overlay base own) → All (IsSoundChange tables base) changes → IsNet own changes net →
        AreRowsOf tables (overlay base net) }
{}

/// The row that an INSERT names as a duplicate is one of its table, and some image fits under it, so that it can be printed
/// by the table's columns. Nothing else names one: no UPDATE, no DELETE and no query, with FOR UPDATE or without. A call
/// that answers a duplicate tells the fault of its statement, and never the limit of a net.
pub fn duplicates_are_of_the_table()
    ensures insert { (tables : Tables) (insert : BoundInsert) (base : Table) (own : List ChangeOfRow) (row : RowId) →
        IsSchema tables → IsSoundInsert tables insert → insert_changes tables insert base own ≡ Err (fault.Duplicate row) →
        (row.table ≡ insert.table) × ((image : RowImage) × Fits tables (row, image)) }
    ensures update { (tables : Tables) (update : BoundUpdate) (base : Table) (own : List ChangeOfRow) (row : RowId) →
        update_changes tables update base own ≢ Err (fault.Duplicate row) }
    ensures delete { (delete : BoundDelete) (base : Table) (own : List ChangeOfRow) (row : RowId) →
        delete_changes delete base own ≢ Err (fault.Duplicate row) }
    ensures lock { (query : BoundSelect) (base : Table) (own : List ChangeOfRow) (row : RowId) →
        touches_in (lock_changes query base own) ≢ Err (fault.Duplicate row) }
    ensures answer { (query : BoundSelect) (rows : Table) (row : RowId) → answer_of query rows ≢ Err (fault.Duplicate row) }
    ensures told { (own : List ChangeOfRow) (made : Result (List RowChange) ExecFault) (row : RowId) →
        IsRefused own made (fault.Duplicate row) → made ≡ Err (fault.Duplicate row) }
{
    bound_values_are_of_their_columns_types();
}

/// What a statement or a query has for its fault is one of its own, whatever the rows and the net are: want of memory is no
/// answer of the definitions, and a limit is that of the net after a statement. So want of memory is never what a statement
/// is refused for.
pub fn faults_are_of_statements()
    ensures insert { (tables : Tables) (insert : BoundInsert) (base : Table) (own : List ChangeOfRow) →
        IfErr (insert_changes tables insert base own) IsOfStatement }
    ensures update { (tables : Tables) (update : BoundUpdate) (base : Table) (own : List ChangeOfRow) →
        IfErr (update_changes tables update base own) IsOfStatement }
    ensures delete { (delete : BoundDelete) (base : Table) (own : List ChangeOfRow) →
        IfErr (delete_changes delete base own) IsOfStatement }
    ensures lock { (query : BoundSelect) (base : Table) (own : List ChangeOfRow) →
        IfErr (touches_in (lock_changes query base own)) IsOfStatement }
    ensures answer { (query : BoundSelect) (rows : Table) → IfErr (answer_of query rows) IsOfStatement }
    ensures refused { (own : List ChangeOfRow) (made : Result (List RowChange) ExecFault) (e : ExecFault) →
        IfErr made IsOfStatement → IsRefused own made e → e ≢ fault.NoMemory }
{
    want_of_memory_is_no_fault();
}

/// The changes of a statement may be made in the net that it was shown: no row is changed twice, a removal is of a row that
/// the net or the base has, and a touch of one that the base has. Asked is what the statement's own call asks: an INSERT or
/// UPDATE is sound, and the rows are those of the schema; for a DELETE or a lock only that base and net rise.
pub fn changes_can_be_applied()
    ensures insert { (tables : Tables) (insert : BoundInsert) (base : Table) (own : List ChangeOfRow) (changes : List RowChange) →
        IsSchema tables → IsSoundInsert tables insert → insert_changes tables insert base own ≡ Ok changes → CanBeApplied own changes }
    ensures update { (tables : Tables) (update : BoundUpdate) (base : Table) (own : List ChangeOfRow) (changes : List RowChange) →
        IsSoundUpdate tables update → AreRowsOf tables (overlay base own) → update_changes tables update base own ≡ Ok changes →
        CanBeApplied own changes }
    ensures delete { (delete : BoundDelete) (base : Table) (own : List ChangeOfRow) (changes : List RowChange) →
        Rises base → Rises own → delete_changes delete base own ≡ Ok changes → CanBeApplied own changes }
    ensures lock { (query : BoundSelect) (base : Table) (own : List ChangeOfRow) (lines : List (List Cell)) (touches : List RowChange) →
        Rises base → Rises own → lock_changes query base own ≡ Ok (lines, touches) → CanBeApplied own touches }
{
    bound_values_are_of_their_columns_types();
}

/// What a transaction's net is over its base when it begins it stays behind each statement that writes or locks: laid over
/// the base it gives rows of the schema, each row that it has fits the schema, and what it touches or removes is in the
/// base. So of a row that the base lacks it has a put or nothing.
pub fn own_nets_stay_own_nets()
    ensures begin { (tables : Tables) (base : Table) → AreRowsOf tables base → IsOwnNet tables base [] }
    ensures insert { (tables : Tables) (insert : BoundInsert) (base : Table) (own : List ChangeOfRow) (changed : ℕ) (net : List ChangeOfRow) →
        IsSchema tables → IsSoundInsert tables insert → IsOwnNet tables base own →
        IsDone own (insert_changes tables insert base own) changed net → IsOwnNet tables base net }
    ensures update { (tables : Tables) (update : BoundUpdate) (base : Table) (own : List ChangeOfRow) (changed : ℕ) (net : List ChangeOfRow) →
        IsSoundUpdate tables update → IsOwnNet tables base own →
        IsDone own (update_changes tables update base own) changed net → IsOwnNet tables base net }
    ensures delete { (tables : Tables) (delete : BoundDelete) (base : Table) (own : List ChangeOfRow) (changed : ℕ) (net : List ChangeOfRow) →
        IsOwnNet tables base own → IsDone own (delete_changes delete base own) changed net → IsOwnNet tables base net }
    ensures lock { (tables : Tables) (query : BoundSelect) (base : Table) (own : List ChangeOfRow) (lines : List (List Cell)) (net : List ChangeOfRow) →
        IsOwnNet tables base own → IsLocked own (lock_changes query base own) lines net → IsOwnNet tables base net }
{
    bound_values_are_of_their_columns_types();
}
