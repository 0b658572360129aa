//! Names of rows.
ghost use Rattle.std.specs.Prelude.{◌≡◌, IfOk};
ghost use Rattle.geo_schema.specs.Rows.{IsRow};
ghost use Rattle.geo_schema.specs.Schemas.{IsTableNo, table_at};
ghost use Rattle.sql_exec.specs.inner.Naming.{name_in};

use geo_base::{NoMemory, RowId, RowImage, TableNo};
use geo_schema::Schema;
use std::alloc::Global;

/// The name of a row of the table.
#[tactic(auto, unfolding(crate::specs::inner::Naming::name_in))]
pub(crate) fn name_of(
    alloc: Global,
    schema: &Schema,
    table: TableNo,
    row: &RowImage,
) -> Result<RowId, NoMemory>
    requires table { IsTableNo schema.now table }
    requires row { IsRow (table_at schema.now table) row.now }
    ensures { IfOk result (λ name. name ≡ name_in schema.now table row.now) }
{
    let key = schema.key_of(alloc, table, row)?;
    Ok(RowId { table, key })
}
