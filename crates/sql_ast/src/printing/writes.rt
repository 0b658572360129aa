//! Statements that write, put at the end of a text.
ghost use Rattle.std.specs.Prelude.{◌≡◌, ◌++◌, OnOk, string_bytes};
ghost use Rattle.sql_ast.specs.Printing as texts;

use super::expressions::{print_expression, print_filter};
use crate::delete::DeleteStmt;
use crate::insert::{AstRow, InsertStmt};
use crate::update::{AstSet, UpdateStmt};
use geo_base::{NoMemory, Printed, Txt, print_commas};

// The list of columns behind the table's name, and nothing where it is empty.
fn print_columns(out: &mut String, columns: &[Txt]) -> Result<(), NoMemory>
    ensures { OnOk result (string_bytes out.new ≡ string_bytes out.old ++ texts.columns_text columns.now) }
{
    if columns.is_empty() {
        return Ok(());
    }
    out.push_str("(")?;
    print_commas(out, columns)?;
    out.push_str(")")?;
    Ok(())
}

impl Printed for AstRow {
    ghost text = { texts.row_text };

    fn print_to(&self, out: &mut String) -> Result<(), NoMemory> {
        out.push_str("(")?;
        print_commas(out, self.values.items())?;
        out.push_str(")")?;
        Ok(())
    }
}

impl Printed for AstSet {
    ghost text = { texts.set_text };

    fn print_to(&self, out: &mut String) -> Result<(), NoMemory> {
        self.column.print_to(out)?;
        out.push_str(" = ")?;
        print_expression(out, &self.value)
    }
}

/// INSERT.
pub(crate) fn print_insert(out: &mut String, insert: &InsertStmt) -> Result<(), NoMemory>
    ensures { OnOk result (string_bytes out.new ≡ string_bytes out.old ++ texts.insert_text insert.now) }
{
    out.push_str("INSERT INTO ")?;
    insert.table.print_to(out)?;
    print_columns(out, insert.columns.items())?;
    out.push_str(" VALUES ")?;
    print_commas(out, insert.rows.items())?;
    Ok(())
}

/// UPDATE.
#[tactic(auto, unfolding(crate::specs::Printing::update_text))]
pub(crate) fn print_update(out: &mut String, update: &UpdateStmt) -> Result<(), NoMemory>
    ensures { OnOk result (string_bytes out.new ≡ string_bytes out.old ++ texts.update_text update.now) }
{
    out.push_str("UPDATE ")?;
    update.table.print_to(out)?;
    out.push_str(" SET ")?;
    print_commas(out, update.sets.items())?;
    print_filter(out, &update.filter)
}

/// DELETE.
pub(crate) fn print_delete(out: &mut String, delete: &DeleteStmt) -> Result<(), NoMemory>
    ensures { OnOk result (string_bytes out.new ≡ string_bytes out.old ++ texts.delete_text delete.now) }
{
    out.push_str("DELETE FROM ")?;
    delete.table.print_to(out)?;
    print_filter(out, &delete.filter)?;
    Ok(())
}
