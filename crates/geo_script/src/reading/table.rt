//! Lines that declare tables.
ghost use Rattle.std.specs.Prelude.{◌≡◌, ◌<◌, ◌^◌, Ok, Err, length, is_none, IfOk, MatchResult};
ghost use Rattle.geo_schema.specs.Schemas.{shown_only};
ghost use Rattle.geo_schema.specs.inner.Schemas.{schema_fault};
ghost use Rattle.schema_text.specs.inner.Texts.{declared_table};
ghost use Rattle.geo_script.specs.inner.TableLines as spec;

use crate::fault::ScriptKind;
use geo_base::{NoMemory, copy_items};
use geo_schema::{Schema, SchemaFault, TableDef};
use schema_text::read_table;
use std::alloc::Global;

/// The table that the text declares.
fn declared_table(alloc: Global, text: &str) -> Result<Option<TableDef>, NoMemory>
    requires { length text.now < 2 ^ 32 }
    ensures { IfOk result (λ found. found ≡ declared_table text.now) }
{
    read_table(alloc, text)
}

/// Whether the tables are a schema. Works on a copy of them, of which a schema has at most 64.
#[tactic(auto, using(crate::proofs::SchemaTables::schema_faultless, crate::proofs::SchemaTables::fault_found))]
pub(crate) fn are_schema(alloc: Global, tables: &[TableDef]) -> Result<bool, NoMemory>
    ensures { IfOk result (λ are. are ≡ is_none (schema_fault (shown_only tables.now))) }
{
    let made = Schema::new(alloc, copy_items(alloc, tables)?);
    let are = match &made {
        Ok(_) => Ok(true),
        Err(SchemaFault::NoMemory) => Err(NoMemory),
        Err(_) => Ok(false),
    };
    drop(made);
    are
}

/// Nothing where the tables are a schema, and else this kind of fault.
pub(crate) fn if_schema(
    alloc: Global,
    kind: ScriptKind,
    tables: &[TableDef],
) -> Result<Result<(), ScriptKind>, NoMemory>
    ensures { IfOk result (λ found. MatchResult found
        (λ _. spec.if_schema kind tables.now ≡ Ok tables.now)
        (λ fault. spec.if_schema kind tables.now ≡ Err fault)) }
{
    if are_schema(alloc, tables)? {
        Ok(Ok(()))
    } else {
        Ok(Err(kind))
    }
}

/// Adds the table that the text declares. Of tables that are refused nothing is known.
#[tactic(auto, unfolding(crate::specs::inner::TableLines::with_table))]
pub(crate) fn declare_table(
    alloc: Global,
    tables: &mut Vec<TableDef>,
    text: &str,
) -> Result<Result<(), ScriptKind>, NoMemory>
    requires { length text.now < 2 ^ 32 }
    ensures { IfOk result (λ found. MatchResult found
        (λ _. spec.with_table tables.old.items text.now ≡ Ok tables.new.items)
        (λ fault. spec.with_table tables.old.items text.now ≡ Err fault)) }
{
    match declared_table(alloc, text)? {
        Some(table) => {
            tables.push(table)?;
            if_schema(alloc, ScriptKind::BadTable, tables.as_slice())
        }
        None => Ok(Err(ScriptKind::BadTable)),
    }
}
