//! Rows that are inserted.
ghost use Rattle.std.specs.Prelude.{◌≡◌, ◌<◌, ◌++◌, ◌||◌, ◌⊎◌, true, false, [], ◌∷◌, List, Option, length, IfOk, IfErr, OnOk};
ghost use Rattle.std.specs.List.{All};
ghost use Rattle.std.specs.Option.{is_some};
ghost use Rattle.geo_base.specs.Order.{row_eq};
ghost use Rattle.geo_base.specs.Results.{Gives, Matches};
ghost use Rattle.geo_base.specs.declared.row_image.RowImage.{RowImage};
ghost use Rattle.geo_schema.specs.Rows.{IsRow};
ghost use Rattle.geo_schema.specs.Schemas.{IsTableNo, table_at};
ghost use Rattle.row_source.specs.declared.fault.ExecFault.TheVariants as fault;
ghost use Rattle.sql_bind.specs.Names.{columns_of};
ghost use Rattle.sql_bind.specs.Sound.{IsSoundInsert, IsSoundRow};
ghost use Rattle.sql_exec.specs.Effects as effects;
ghost use Rattle.sql_exec.specs.Effects.{insert_changes};
ghost use Rattle.sql_exec.specs.inner.Fitting.{nulls, written};
ghost use Rattle.sql_exec.specs.inner.Inserting.{AreNamesOf, has_name, new_image, new_row};
ghost use Rattle.write_set.specs.Net.{change_in};
ghost use Rattle.write_set.specs.Snapshot.{image_over};
ghost use Rattle.write_set.specs.declared.row_change.RowChange.{RowChange};

use crate::fitting::{fitting, numbered};
use crate::lines::value_over;
use crate::naming::name_of;
use geo_base::{Cell, Duplicate, Many, NoMemory, RowId, RowImage};
use geo_schema::{ColumnDef, Schema};
use row_source::{ExecFault, RowSource};
use sql_bind::{BoundInsert, ExprRow, bound_values_are_of_their_columns_types};
use sql_expr::Expr;
use std::alloc::Global;
use std::collections::BTreeSet;
use write_set::{Change, RowChange, RowChangeList, WriteSet};

/// NULL for each column.
fn nulls(alloc: Global, columns: &[ColumnDef]) -> Result<Vec<Cell>, NoMemory>
    ensures { IfOk result (λ v. v.items ≡ nulls columns.now) }
{
    let mut cells = Vec::with_capacity(alloc, columns.len())?;
    for _column in columns {
        cells.push(Cell::Null)?;
    }
    Ok(cells)
}

/// The cells of a new row: the values of the expressions in the columns at the places, and NULL in the others.
#[tactic(auto, using(crate::proofs::Written::all_written))]
fn new_cells(
    alloc: Global,
    columns: &[ColumnDef],
    places: &[u8],
    values: &[Expr],
) -> Result<Vec<Cell>, ExecFault>
    requires count { length values.now ≡ length places.now }
    requires within { All (λ place. place < length columns.now) places.now }
    ensures { Gives fault.NoMemory (λ v. v.items) result (written [] places.now values.now (nulls columns.now)) }
{
    let mut cells = nulls(alloc, columns)?;
    for (at, place) in places.iter().enumerate() {
        cells[*place as usize] = value_over(alloc, &values[at], &[])?;
    }
    Ok(cells)
}

/// The image of a new row, or the first fault of its values and then of its cells.
fn new_image(
    alloc: Global,
    query: &BoundInsert,
    schema: &Schema,
    row: &ExprRow,
) -> Result<RowImage, ExecFault>
    requires table { IsTableNo schema.now query.now.table }
    requires insert { IsSoundInsert schema.now query.now }
    requires row { IsSoundRow (columns_of schema.now query.now.table) query.now.columns row.now }
    ensures image { Gives fault.NoMemory (λ i. i) result (new_image schema.now query.now row.now) }
    ensures row { IfOk result (λ i. IsRow (table_at schema.now query.now.table) i) }
{
    bound_values_are_of_their_columns_types();
    let columns = numbered(schema, query.table).columns.items();
    let cells = new_cells(alloc, columns, query.columns.items(), row.values.items())?;
    fitting(alloc, schema, query.table, cells)
}

/// Whether there is the row in a base that has it or not, with the net laid over it.
fn is_left(own: &WriteSet, row: &RowId, before: bool) -> bool
    ensures { (image : Option RowImage) → is_some image ≡ before → result ≡ is_some (image_over (change_in own.now row.now) image) }
{
    match own.get(row) {
        Some(Change::Put(_)) => true,
        Some(Change::Remove) => false,
        Some(Change::Touch) | None => before,
    }
}

/// The change that puts a new row, unless there is such a row.
#[tactic(auto, using(crate::proofs::Inserted::there, crate::proofs::Inserted::absent))]
fn new_row<R: RowSource>(
    source: &R,
    own: &WriteSet,
    row: RowId,
    image: RowImage,
) -> Result<RowChange, ExecFault>
    ensures { Matches (λ c. c) result (new_row (R.base source.now) own.now row image) }
{
    let _changes = own.changes();
    let before = source.base_has(&row);
    if is_left(own, &row, before) {
        return Err(ExecFault::Duplicate(row));
    }
    let change = Change::Put(image);
    Ok(RowChange {
        row,
        before,
        change,
    })
}

/// Notes the name of a row, and refuses one that is noted already.
#[tactic(auto, using(crate::proofs::Inserted::noted))]
fn note(alloc: Global, names: &mut BTreeSet<RowId>, row: &RowId) -> Result<(), ExecFault>
    ensures new { OnOk result (has_name names.old.keys row.now ≡ false) }
    ensures noted { OnOk result ((other : RowId) → has_name names.new.keys other ≡ (has_name names.old.keys other || row_eq other row.now)) }
    ensures taken { IfErr result (λ e. (e ≡ fault.NoMemory) ⊎ ((e ≡ fault.Duplicate row.now) × (has_name names.old.keys row.now ≡ true))) }
{
    if !names.insert(row.copy(alloc)?)? {
        return Err(ExecFault::Duplicate(row.copy(alloc)?));
    }
    Ok(())
}

/// The change that puts a new row behind those whose names are noted, and its name beside theirs, unless there is such a row
/// or its name is noted.
#[tactic(auto, using(crate::proofs::Inserted::not_noted, crate::proofs::Inserted::is_noted, crate::proofs::Inserted::one_more))]
fn inserted_row<R: RowSource>(
    alloc: Global,
    source: &R,
    own: &WriteSet,
    names: &mut BTreeSet<RowId>,
    row: RowId,
    image: RowImage,
) -> Result<RowChange, ExecFault>
    ensures change { (done : List RowChange) → AreNamesOf done names.old.keys → Gives fault.NoMemory (λ c. c) result (effects.inserted_row (R.base source.now) own.now done row image) }
    ensures names { (done : List RowChange) → AreNamesOf done names.old.keys → IfOk result (λ c. AreNamesOf (done ++ c ∷ []) names.new.keys) }
{
    note(alloc, names, &row)?;
    new_row(source, own, row, image)
}

/// The change of a row of an INSERT behind those whose names are noted, or its first fault.
#[tactic(auto, using(crate::proofs::Inserted::image_fault, crate::proofs::Inserted::image_made))]
fn insert_one<R: RowSource>(
    alloc: Global,
    query: &BoundInsert,
    source: &R,
    own: &WriteSet,
    schema: &Schema,
    names: &mut BTreeSet<RowId>,
    row: &ExprRow,
) -> Result<RowChange, ExecFault>
    requires table { IsTableNo schema.now query.now.table }
    requires insert { IsSoundInsert schema.now query.now }
    requires row { IsSoundRow (columns_of schema.now query.now.table) query.now.columns row.now }
    ensures change { (done : List RowChange) → AreNamesOf done names.old.keys → Gives fault.NoMemory (λ c. c) result (effects.insert_one schema.now query.now (R.base source.now) own.now done row.now) }
    ensures names { (done : List RowChange) → AreNamesOf done names.old.keys → IfOk result (λ c. AreNamesOf (done ++ c ∷ []) names.new.keys) }
{
    let image = new_image(alloc, query, schema, row)?;
    let name = name_of(alloc, schema, query.table, &image)?;
    inserted_row(alloc, source, own, names, name, image)
}

/// The changes of an INSERT, or its first fault.
#[tactic(auto, unfolding(crate::specs::Effects::insert_changes), using(crate::proofs::Inserted::none_noted))]
fn insert_rows<R: RowSource>(
    alloc: Global,
    query: &BoundInsert,
    source: &R,
    own: &WriteSet,
    schema: &Schema,
) -> Result<Vec<RowChange>, ExecFault>
    requires table { IsTableNo schema.now query.now.table }
    requires insert { IsSoundInsert schema.now query.now }
    ensures { Gives fault.NoMemory (λ v. v.items) result (insert_changes schema.now query.now (R.base source.now) own.now) }
{
    let mut names = BTreeSet::new(alloc);
    let mut changes = Vec::new(alloc);
    for row in query.rows.items() {
        let change = insert_one(alloc, query, source, own, schema, &mut names, row)?;
        changes.push(change)?;
    }
    Ok(changes)
}

/// The changes of an INSERT, which [`crate::apply_changes`] makes in the transaction's net `own`: it puts its rows, in the
/// order in which they are written, each of which the source's base with the net laid over it lacks. No row is handed out:
/// whether there is one is asked of the base and of the net.
///
/// A row's values come first, from left to right, then its cells in the order of their columns, then its name, and the
/// first fault of the first row that has one is the answer: [`ExecFault::Overflow`] or [`ExecFault::DivideByZero`],
/// [`ExecFault::NullNotAllowed`] or [`ExecFault::TextTooLong`], [`ExecFault::Duplicate`]. The cost is that of the values,
/// and for each row two copies of its key, a question to the base, and a search in the net and among the names so far.
#[tactic(auto, using(geo_schema::specs::laws::Numbers::shown_is))]
pub fn insert<R: RowSource>(
    alloc: Global,
    query: &BoundInsert,
    source: &R,
    own: &WriteSet,
    schema: &Schema,
) -> Result<RowChangeList, ExecFault>
    requires { IsSoundInsert schema.now query.now }
    ensures { Gives fault.NoMemory (λ c. c) result (insert_changes schema.now query.now (R.base source.now) own.now) }
{
    let _count = schema.count();
    let changes = insert_rows(alloc, query, source, own, schema)?;
    Ok(Many::new(changes))
}
