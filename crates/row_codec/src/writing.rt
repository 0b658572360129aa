ghost use Rattle.std.specs.Prelude.{◌≡◌, ◌++◌, length, OnOk, OnErr};
ghost use Rattle.row_codec.specs.Spelling.{cell_spelling, cells_spelling, IsCell, AreCells};

use crate::tag;
use geo_base::{Cell, Key, NoMemory};

/// Appends both pieces, or none.
fn append(out: &mut Vec<u8>, head: &[u8], rest: &[u8]) -> Result<(), NoMemory>
    ensures ok { OnOk result (out.new.items ≡ out.old.items ++ (head.now ++ rest.now)) }
    ensures err { OnErr result (out.new.items ≡ out.old.items) }
{
    out.reserve(head.len() + rest.len())?;
    out.extend_from_slice(head)?;
    out.extend_from_slice(rest)?;
    Ok(())
}

/// Appends the spelling of a cell.
pub fn cell_bytes(cell: &Cell, out: &mut Vec<u8>) -> Result<(), NoMemory>
    ensures ok { OnOk result (out.new.items ≡ out.old.items ++ cell_spelling cell.now) }
    ensures readable { OnOk result (IsCell cell.now) }
    ensures err { OnErr result (out.new.items ≡ out.old.items) }
{
    match cell {
        Cell::Null => append(out, &[tag::NULL], &[]),
        Cell::Int(number) => append(out, &[tag::INT], &number.to_be_bytes()),
        Cell::Text(text) => {
            let content = text.text().as_bytes();
            let [high, low] = (content.len() as u16).to_be_bytes();
            append(out, &[tag::TEXT, high, low], content)
        }
        Cell::Truth(false) => append(out, &[tag::FALSE], &[]),
        Cell::Truth(true) => append(out, &[tag::TRUE], &[]),
    }
}

/// Appends the spellings of a key's cells.
pub fn key_bytes(key: &Key, out: &mut Vec<u8>) -> Result<(), NoMemory>
    ensures ok { OnOk result (out.new.items ≡ out.old.items ++ cells_spelling key.now) }
    ensures readable { OnOk result (AreCells key.now) }
    ensures err { OnErr result (out.new.items ≡ out.old.items) }
{
    let before = out.len();
    let cells = key.cells();
    for cell in cells {
        if let Err(e) = cell_bytes(cell, out) {
            out.truncate(before);
            return Err(e);
        }
    }
    Ok(())
}

/// The number of bytes of a cell's spelling.
pub fn cell_size(cell: &Cell) -> u64
    ensures { result ≡ length (cell_spelling cell.now) }
{
    match cell {
        Cell::Null | Cell::Truth(_) => 1,
        Cell::Int(_) => 9,
        Cell::Text(text) => 3 + text.text().len() as u64,
    }
}
