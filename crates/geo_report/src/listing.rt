//! Lines, one for each item of a list, put at the end of a text, which is to be dropped after an error.
ghost use Rattle.std.specs.Prelude.{◌≡◌, ◌++◌, map, OnOk, string_bytes};
ghost use Rattle.std.specs.List.{flat_map};
ghost use Rattle.geo_base.specs.Texts.{row_text};
ghost use Rattle.geo_report.specs.Words.{line, row_lines};

use geo_base::{Cell, Line, NoMemory, RowImage, Txt, print_row};

/// The cells in a line of their own.
fn print_cells(out: &mut String, cells: &[Cell]) -> Result<(), NoMemory>
    ensures { OnOk result (string_bytes out.new ≡ string_bytes out.old ++ line (row_text cells.now)) }
{
    print_row(out, cells)?;
    Ok(out.push_str("\n")?)
}

/// The lines of an answer.
pub fn print_lines(out: &mut String, lines: &[Line]) -> Result<(), NoMemory>
    ensures { OnOk result (string_bytes out.new ≡ string_bytes out.old ++ row_lines lines.now) }
{
    for line in lines {
        print_cells(out, line.cells())?;
    }
    Ok(())
}

/// Rows by their images.
pub fn print_images(out: &mut String, images: &[&RowImage]) -> Result<(), NoMemory>
    ensures { OnOk result (string_bytes out.new ≡ string_bytes out.old ++ row_lines (map (λ image. image.now) images.now)) }
{
    for image in images {
        print_cells(out, image.cells())?;
    }
    Ok(())
}

/// The text in a line of its own.
fn print_text(out: &mut String, text: &Txt) -> Result<(), NoMemory>
    ensures { OnOk result (string_bytes out.new ≡ string_bytes out.old ++ line text.now) }
{
    out.push_str(text.text())?;
    Ok(out.push_str("\n")?)
}

/// The lines of a plan.
pub fn print_texts(out: &mut String, texts: &[Txt]) -> Result<(), NoMemory>
    ensures { OnOk result (string_bytes out.new ≡ string_bytes out.old ++ flat_map line texts.now) }
{
    for text in texts {
        print_text(out, text)?;
    }
    Ok(())
}
