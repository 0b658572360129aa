//! Tables, put at the end of a text.
ghost use Rattle.std.specs.Prelude.{◌≡◌, ◌++◌, OnOk, string_bytes};
ghost use Rattle.geo_world.specs.Lines as lines;

use geo_base::{NoMemory, print_row};
use std::fmt::Write;
use write_set::Plain;

/// A line for each row of the table.
pub(super) fn print_rows(out: &mut String, table: &Plain) -> Result<(), NoMemory>
    ensures { OnOk result (string_bytes out.new ≡ string_bytes out.old ++ lines.rows_lines table.now.rows) }
{
    for place in 0..table.count() {
        let Some((_, image)) = table.row(place) else {
            return Ok(());
        };
        print_row(out, image.cells())?;
        writeln!(out)?;
    }
    Ok(())
}
