//! Touches of rows.
ghost use Rattle.std.specs.Prelude.{◌≡◌, ◌++◌, [], ◌∷◌, map, IfOk, OnOk};
ghost use Rattle.std.specs.List.{All};
ghost use Rattle.geo_schema.specs.Rows.{IsRow};
ghost use Rattle.geo_schema.specs.Schemas.{IsTableNo, table_at};
ghost use Rattle.sql_exec.specs.inner.Naming.{name_in};
ghost use Rattle.sql_exec.specs.inner.Touching.{touches_by};

use crate::naming::name_of;
use geo_base::{NoMemory, RowId, RowImage, TableNo};
use geo_schema::Schema;
use row_source::RowSource;
use std::alloc::Global;
use write_set::{Change, RowChange, WriteSet};

/// Adds the touch of the row, if the net lacks it.
#[tactic(auto, using(crate::proofs::Touched::known, crate::proofs::Touched::fresh))]
fn touch<R: RowSource>(
    source: &R,
    own: &WriteSet,
    row: RowId,
    touches: &mut Vec<RowChange>,
) -> Result<(), NoMemory>
    ensures { OnOk result (touches.new.items ≡ touches.old.items ++ touches_by (R.base source.now) own.now (row ∷ [])) }
{
    if own.get(&row).is_some() {
        return Ok(());
    }
    let before = source.base_has(&row);
    let change = Change::Touch;
    Ok(touches.push(RowChange {
        row,
        before,
        change,
    })?)
}

/// The touches of those of the rows of the table that the net lacks.
#[tactic(auto, using(crate::proofs::Touched::none))]
pub(crate) fn touches_of<R: RowSource>(
    alloc: Global,
    schema: &Schema,
    source: &R,
    own: &WriteSet,
    table: TableNo,
    rows: &[&RowImage],
) -> Result<Vec<RowChange>, NoMemory>
    requires table { IsTableNo schema.now table }
    requires rows { All (IsRow (table_at schema.now table)) (map (λ row. row.now) rows.now) }
    ensures { IfOk result (λ v. v.items ≡ touches_by (R.base source.now) own.now (map (name_in schema.now table) (map (λ row. row.now) rows.now))) }
{
    let mut touches = Vec::new(alloc);
    for row in rows {
        let name = name_of(alloc, schema, table, row)?;
        touch(source, own, name, &mut touches)?;
    }
    Ok(touches)
}
