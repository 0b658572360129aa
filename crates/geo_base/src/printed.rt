//! Texts of values, put at the end of a text.
ghost use Rattle.std.specs.Prelude.{◌≡◌, ◌++◌, OnOk, string_bytes};
ghost use Rattle.geo_base.specs.Texts.{doubled, quoted, cell_text, commas, row_text};

use crate::cell::Cell;
use crate::duplicate::NoMemory;
use crate::txt::Txt;
use std::fmt::Write;

/// What has a text. A value that is put at the end of a text takes a step for each byte of its own.
pub trait Printed {
    ghost use Rattle.std.specs.Prelude.{ℕ, List};

    ghost text: { Self → List ℕ };

    /// Puts the text of the value at the end of `out`, which is to be dropped after an error.
    fn print_to(&self, out: &mut String) -> Result<(), NoMemory>
        ensures { OnOk result (string_bytes out.new ≡ string_bytes out.old ++ text self.now) };
}

/// Puts the items with a comma and a space between them at the end of `out`, which is to be dropped after an
/// error.
pub fn print_commas<T: Printed>(out: &mut String, items: &[T]) -> Result<(), NoMemory>
    ensures { OnOk result (string_bytes out.new ≡ string_bytes out.old ++ commas T.text items.now) }
{
    let Some((first, others)) = items.split_first() else {
        return Ok(());
    };
    first.print_to(out)?;
    for item in others {
        out.push_str(", ")?;
        item.print_to(out)?;
    }
    Ok(())
}

// A text with each quote in it doubled.
fn print_doubled(out: &mut String, text: &str) -> Result<(), NoMemory>
    ensures { OnOk result (string_bytes out.new ≡ string_bytes out.old ++ doubled text.now) }
{
    let mut rest = text;
    while let Some((before, after)) = rest.split_once('\'') {
        out.push_str(before)?;
        out.push_str("''")?;
        rest = after;
    }
    out.push_str(rest)?;
    Ok(())
}

// A text in quotes, with each quote in it doubled.
fn print_quoted(out: &mut String, text: &str) -> Result<(), NoMemory>
    ensures { OnOk result (string_bytes out.new ≡ string_bytes out.old ++ quoted text.now) }
{
    out.push_str("'")?;
    print_doubled(out, text)?;
    out.push_str("'")?;
    Ok(())
}

/// A text as it is, without quotes: so a name is written.
impl Printed for Txt {
    ghost text = { λ t. t };

    fn print_to(&self, out: &mut String) -> Result<(), NoMemory> {
        out.push_str(self.text())?;
        Ok(())
    }
}

impl Printed for Cell {
    ghost text = { cell_text };

    fn print_to(&self, out: &mut String) -> Result<(), NoMemory> {
        match self {
            Cell::Null => out.push_str("NULL")?,
            Cell::Int(number) => write!(out, "{number}")?,
            Cell::Text(text) => print_quoted(out, text.text())?,
            Cell::Truth(true) => out.push_str("TRUE")?,
            Cell::Truth(false) => out.push_str("FALSE")?,
        }
        Ok(())
    }
}

/// Puts a row at the end of `out`: its cells in parentheses, with a comma and a space between them. After an
/// error `out` is to be dropped.
pub fn print_row(out: &mut String, cells: &[Cell]) -> Result<(), NoMemory>
    ensures { OnOk result (string_bytes out.new ≡ string_bytes out.old ++ row_text cells.now) }
{
    out.push_str("(")?;
    print_commas(out, cells)?;
    out.push_str(")")?;
    Ok(())
}
