//! Tables that are shown, and their indexes.
ghost use Rattle.std.specs.Prelude.{◌≡◌, ◌<◌, length};
ghost use Rattle.geo_schema.specs.Schemas.{IsTableNo, table_at};
ghost use Rattle.geo_schema.specs.Tables.{IsTable};
ghost use Rattle.geo_schema.specs.declared.limits.TheConstants.{FIRST_HIDDEN};
ghost use Rattle.geo_schema.specs.Indexes.{index_at};

use geo_base::TableNo;
use geo_schema::{IndexDef, Schema, TableDef};

/// The table with the number.
#[tactic(auto, using(geo_schema::specs::laws::Numbers::table_is))]
fn numbered(schema: &Schema, number: TableNo) -> &TableDef
    requires there { IsTableNo schema.now number }
    requires low { number < FIRST_HIDDEN }
    ensures table { result.now ≡ table_at schema.entry.now number }
    ensures rules { IsTable result.now }
{
    schema.table(number).unwrap()
}

/// The table that is shown with the number.
#[tactic(auto, using(crate::proofs::Short::has_number, crate::proofs::Short::low_number))]
pub(crate) fn shown_table(schema: &Schema, number: TableNo) -> &TableDef
    requires { number < length schema.now.shown }
    ensures table { result.now ≡ table_at schema.entry.now number }
    ensures rules { IsTable result.now }
{
    let _count = schema.count();
    numbered(schema, number)
}

/// The index of the table at the place.
#[tactic(auto, using(crate::proofs::Chosen::index_is))]
pub(crate) fn index_at(table: &TableDef, place: usize) -> &IndexDef
    requires { place < length table.now.indexes }
    ensures { result.now ≡ index_at table.entry.now place }
{
    &table.indexes.items()[place]
}
