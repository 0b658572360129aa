//! Plans in words.
ghost use Rattle.std.specs.Prelude.{◌≡◌, ◌<◌, ◌≤◌, ◌++◌, [], ◌∷◌, length, string_bytes, IfOk, OnOk};
ghost use Rattle.std.specs.List.{All};
ghost use Rattle.geo_base.specs.declared.limits.TheConstants.{MAX_TEXT_BYTES};
ghost use Rattle.geo_schema.specs.Tables.{IsTable};
ghost use Rattle.row_source.specs.Handing.{IsAccessTo, IsPlanFor};
ghost use Rattle.sql_plan.specs.Lines as lines;

use crate::tables::{index_at, shown_table};
use geo_base::{NoMemory, TableNo, Txt, TxtFault};
use geo_schema::{Schema, TableDef};
use row_source::{Access, JoinKind, Plan, Second};
use std::alloc::Global;

/// A text of the line.
fn text_of(alloc: Global, line: &str) -> Result<Txt, NoMemory>
    requires { length line.now ≤ MAX_TEXT_BYTES }
    ensures { IfOk result (λ text. text ≡ line.now) }
{
    match Txt::new(alloc, line) {
        Ok(text) => Ok(text),
        Err(TxtFault::NoMemory) => Err(NoMemory),
        Err(TxtFault::TooLong) => unreachable!(),
    }
}

/// Puts an access in words at the end of `out`, which is to be dropped after an error; an index by its name.
fn print_access(out: &mut String, table: &TableDef, way: &Access) -> Result<(), NoMemory>
    requires { IsAccessTo table.now way.now }
    ensures { OnOk result (string_bytes out.new ≡ string_bytes out.old ++ lines.access_words table.now way.now) }
{
    match way {
        Access::Point(_) => Ok(out.push_str("point")?),
        Access::Range(_) => Ok(out.push_str("key range")?),
        Access::Index(place, _) => {
            out.push_str("index ")?;
            let index = index_at(table, usize::from(*place));
            Ok(out.push_str(index.name.text())?)
        }
        Access::Scan => Ok(out.push_str("scan")?),
    }
}

/// Puts a join in words at the end of `out`, which is to be dropped after an error.
fn print_join(out: &mut String, join: &JoinKind) -> Result<(), NoMemory>
    ensures { OnOk result (string_bytes out.new ≡ string_bytes out.old ++ lines.join_words join.now) }
{
    match join {
        JoinKind::Nested => Ok(out.push_str(", join nested")?),
        JoinKind::ByKey(_) => Ok(out.push_str(", join by key")?),
        JoinKind::Hashed(_, _) => Ok(out.push_str(", join hashed")?),
    }
}

/// A table's own name, and how its rows are reached.
fn access_line(alloc: Global, table: &TableDef, way: &Access) -> Result<String, NoMemory>
    requires { IsAccessTo table.now way.now }
    ensures { IfOk result (λ line. string_bytes line ≡ lines.access_line table.now way.now) }
{
    let mut line = String::new(alloc);
    line.push_str(table.name.text())?;
    line.push_str(" ")?;
    print_access(&mut line, table, way)?;
    Ok(line)
}

/// The line of a first table.
#[tactic(auto, using(crate::proofs::Short::access_few))]
fn first_line(alloc: Global, table: &TableDef, way: &Access) -> Result<Txt, NoMemory>
    requires rules { IsTable table.now }
    requires fits { IsAccessTo table.now way.now }
    ensures { IfOk result (λ line. line ≡ lines.access_line table.now way.now) }
{
    let line = access_line(alloc, table, way)?;
    text_of(alloc, line.as_str())
}

/// The line of a second table.
#[tactic(auto, using(crate::proofs::Short::second_few))]
fn second_line(alloc: Global, table: &TableDef, second: &Second) -> Result<Txt, NoMemory>
    requires rules { IsTable table.now }
    requires fits { IsAccessTo table.now second.now.access }
    ensures { IfOk result (λ line. line ≡ lines.second_line table.now second.now) }
{
    let mut line = access_line(alloc, table, &second.access)?;
    print_join(&mut line, &second.join)?;
    text_of(alloc, line.as_str())
}

/// The line of a plan of one table.
fn one_line(
    alloc: Global,
    schema: &Schema,
    left: TableNo,
    plan: &Plan,
) -> Result<Vec<Txt>, NoMemory>
    requires shown { left < length schema.now.shown }
    requires fits { IsPlanFor schema.now (left ∷ []) plan.now }
    ensures { IfOk result (λ made. made.items ≡ lines.lines_of schema.now (left ∷ []) plan.now) }
{
    let mut made = Vec::new(alloc);
    made.push(first_line(alloc, shown_table(schema, left), &plan.first)?)?;
    Ok(made)
}

/// The lines of a plan of two tables.
fn two_lines(
    alloc: Global,
    schema: &Schema,
    left: TableNo,
    right: TableNo,
    plan: &Plan,
) -> Result<Vec<Txt>, NoMemory>
    requires left { left < length schema.now.shown }
    requires right { right < length schema.now.shown }
    requires fits { IsPlanFor schema.now (left ∷ right ∷ []) plan.now }
    ensures { IfOk result (λ made. made.items ≡ lines.lines_of schema.now (left ∷ right ∷ []) plan.now) }
{
    let mut made = Vec::new(alloc);
    made.push(first_line(alloc, shown_table(schema, left), &plan.first)?)?;
    if let Some(second) = &plan.second {
        made.push(second_line(alloc, shown_table(schema, right), second)?)?;
    }
    Ok(made)
}

/// The lines of a plan, one for each table, as EXPLAIN prints them.
#[tactic(auto, using(crate::proofs::Numbers::one_number, crate::proofs::Numbers::two_numbers, crate::proofs::Numbers::has_tables))]
pub fn plan_lines(
    alloc: Global,
    schema: &Schema,
    tables: &[TableNo],
    plan: &Plan,
) -> Result<Vec<Txt>, NoMemory>
    requires shown { All (λ table. table < length schema.now.shown) tables.now }
    requires fits { IsPlanFor schema.now tables.now plan.now }
    ensures { IfOk result (λ made. made.items ≡ lines.lines_of schema.now tables.now plan.now) }
{
    if tables.len() == 1 {
        return Ok(one_line(alloc, schema, tables[0], plan)?);
    }
    Ok(two_lines(alloc, schema, tables[0], tables[1], plan)?)
}
