//! Pieces of lines, put at the end of a text, which is to be dropped after an error. Each begins with words of its line.
ghost use Rattle.std.specs.Prelude.{◌≡◌, ◌++◌, OnOk, string_bytes};
ghost use Rattle.std.specs.Fmt.{decimal};
ghost use Rattle.geo_schema.specs.Schemas.{table_at};
ghost use Rattle.geo_report.specs.Words.{id_text, row_name};

use geo_base::{CandId, NoMemory, RowId, TableNo, print_row};
use geo_schema::Schema;
use std::fmt::Write;

/// The words, and a number.
pub fn print_number(out: &mut String, words: &str, number: u64) -> Result<(), NoMemory>
    ensures { OnOk result (string_bytes out.new ≡ string_bytes out.old ++ (words.now ++ decimal number)) }
{
    out.push_str(words)?;
    write!(out, "{number}")?;
    Ok(())
}

/// The words, and a candidate.
pub fn print_id(out: &mut String, words: &str, id: CandId) -> Result<(), NoMemory>
    ensures { OnOk result (string_bytes out.new ≡ string_bytes out.old ++ (words.now ++ id_text id)) }
{
    print_number(out, words, u64::from(id.epoch))?;
    print_number(out, ".", u64::from(id.region))?;
    print_number(out, ".", u64::from(id.csn))
}

/// The words, and the name of the table with the number: nothing where there is no such table.
#[tactic(auto, using(geo_schema::specs::laws::Numbers::table_is))]
pub fn print_table_name(
    out: &mut String,
    words: &str,
    schema: &Schema,
    number: TableNo,
) -> Result<(), NoMemory>
    ensures { OnOk result (string_bytes out.new ≡ string_bytes out.old ++ (words.now ++ (table_at schema.now number).name)) }
{
    out.push_str(words)?;
    match schema.table(number) {
        Some(table) => Ok(out.push_str(table.name.text())?),
        None => Ok(()),
    }
}

/// The words, and a row by its table's name and its key.
pub fn print_row_name(
    out: &mut String,
    words: &str,
    schema: &Schema,
    row: &RowId,
) -> Result<(), NoMemory>
    ensures { OnOk result (string_bytes out.new ≡ string_bytes out.old ++ (words.now ++ row_name schema.now row.now)) }
{
    print_table_name(out, words, schema, row.table)?;
    print_row(out, row.key.cells())
}
