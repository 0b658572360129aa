//! The table of every play.
ghost use Rattle.std.specs.Prelude.{◌≡◌, ◌≤◌, IfOk, length};
ghost use Rattle.geo_base.specs.declared.limits.TheConstants.{MAX_TEXT_BYTES};
ghost use Rattle.geo_world.specs.Tables.{int_column, kv_table, kv_tables};

use geo_base::{NoMemory, Txt, TxtFault};
use geo_schema::{
    ColumnDef, ColumnList, IndexList, Kind, PlaceList, Schema, SchemaFault, TableDef,
};
use std::alloc::Global;

/// The schema of the table `kv (k INT KEY, v INT)`.
#[tactic(auto, using(crate::proofs::OneTable::kv_no_fault))]
pub fn kv_schema(alloc: Global) -> Result<Schema, NoMemory>
    ensures { IfOk result (λ schema. schema ≡ kv_tables) }
{
    let tables = vec![in alloc; kv_table(alloc)?]?;
    match Schema::new(alloc, tables) {
        Ok(schema) => Ok(schema),
        Err(SchemaFault::NoMemory) => Err(NoMemory),
        Err(_) => unreachable!(),
    }
}

fn kv_table(alloc: Global) -> Result<TableDef, NoMemory>
    ensures { IfOk result (λ table. table ≡ kv_table) }
{
    let columns = vec![in alloc; int_column(alloc, "k")?, int_column(alloc, "v")?]?;
    Ok(TableDef {
        name: name_of(alloc, "kv")?,
        columns: ColumnList::new(columns),
        key: PlaceList::new(vec![in alloc; 0]?),
        indexes: IndexList::new(Vec::new(alloc)),
    })
}

fn int_column(alloc: Global, name: &str) -> Result<ColumnDef, NoMemory>
    requires { length name.now ≤ MAX_TEXT_BYTES }
    ensures { IfOk result (λ column. column ≡ int_column name.now) }
{
    Ok(ColumnDef {
        name: name_of(alloc, name)?,
        kind: Kind::Int,
        not_null: false,
    })
}

fn name_of(alloc: Global, name: &str) -> Result<Txt, NoMemory>
    requires { length name.now ≤ MAX_TEXT_BYTES }
    ensures { IfOk result (λ text. text ≡ name.now) }
{
    match Txt::new(alloc, name) {
        Ok(text) => Ok(text),
        Err(TxtFault::NoMemory) => Err(NoMemory),
        Err(TxtFault::TooLong) => unreachable!(),
    }
}
