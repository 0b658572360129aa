//! That the cells of a candidate are cells of the program: numbers of 64 bits, and texts. No type says so of cells that lie
//! in lists, so each is looked at.
ghost use Rattle.std.specs.Int.{w64};
ghost use Rattle.std.specs.Prelude.{All, FitsSigned};
ghost use Rattle.row_codec.specs.Spelling.{IsCell, AreCells};
ghost use Rattle.set_codec.specs.Fits.{HasCells, HaveCells};

use geo_base::{Cell, RowId};
use write_set::{Candidate, Change};

/// Looks at the cells of a candidate.
pub(crate) fn see_candidate(candidate: &Candidate)
    ensures { HaveCells candidate.now }
{
    see_changes(candidate.set.changes());
}

fn see_changes(changes: &[(RowId, Change)])
    ensures { All HasCells changes.now }
{
    for (row, change) in changes {
        see_change(row, change);
    }
}

fn see_change(row: &RowId, change: &Change)
    ensures { HasCells (row.now, change.now) }
{
    see_cells(row.key.cells());
    if let Change::Put(image) = change {
        see_cells(image.cells());
    }
}

fn see_cells(cells: &[Cell])
    ensures { AreCells cells.now }
{
    for cell in cells {
        see_cell(cell);
    }
}

fn see_cell(cell: &Cell)
    ensures { IsCell cell.now }
{
    match cell {
        Cell::Int(number) => fits(*number),
        Cell::Text(text) => {
            let _text = text.text();
        }
        Cell::Null | Cell::Truth(_) => {}
    }
}

/// A number of 64 bits.
fn fits(_number: i64)
    ensures { FitsSigned w64 _number }
{}
