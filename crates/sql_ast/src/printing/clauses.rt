//! Clauses of a list, put at the end of a text.
ghost use Rattle.std.specs.Prelude.{◌≡◌, ◌++◌, OnOk, string_bytes};
ghost use Rattle.sql_ast.specs.Printing as texts;

use geo_base::{NoMemory, Printed, print_commas};

/// Words and the items behind them, and nothing where there is no item.
pub(crate) fn print_list_clause<T: Printed>(
    out: &mut String,
    words: &str,
    items: &[T],
) -> Result<(), NoMemory>
    ensures { OnOk result (string_bytes out.new ≡ string_bytes out.old ++ texts.list_clause words.now T.text items.now) }
{
    if items.is_empty() {
        return Ok(());
    }
    out.push_str(words)?;
    print_commas(out, items)
}
