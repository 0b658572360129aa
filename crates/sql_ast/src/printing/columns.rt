//! Names and columns, put at the end of a text.
ghost use Rattle.std.specs.Prelude.{◌≡◌, ◌++◌, OnOk, string_bytes};
ghost use Rattle.sql_ast.specs.Printing as texts;

use crate::ast::ColRef;
use geo_base::{NoMemory, Printed, Txt};

impl Printed for ColRef {
    ghost text = { texts.column_text };

    fn print_to(&self, out: &mut String) -> Result<(), NoMemory> {
        if let Some(table) = &self.table {
            table.print_to(out)?;
            out.push_str(".")?;
        }
        self.name.print_to(out)
    }
}

/// The name that AS gives, where there is one.
pub(crate) fn print_alias(out: &mut String, alias: &Option<Txt>) -> Result<(), NoMemory>
    ensures { OnOk result (string_bytes out.new ≡ string_bytes out.old ++ texts.alias_text alias.now) }
{
    if let Some(name) = alias {
        out.push_str(" AS ")?;
        name.print_to(out)?;
    }
    Ok(())
}
