//! Pieces of a text that are repeated: `{3:PIECE}` is the piece three times, and a `#` in it the number of the time.
use geo_base::NoMemory;
use std::alloc::Global;
use std::test::Fail;

/// Writes the piece with the number in place of its `#`.
fn add_numbered(out: &mut String, piece: &str, number: u32) -> Result<(), NoMemory> {
    match piece.split_once('#') {
        Some((head, tail)) => Ok(write!(out, "{head}{number}{tail}")?),
        None => Ok(out.push_str(piece)?),
    }
}

/// Writes what stands between the braces: a number, a colon and the piece.
fn add_repeated(out: &mut String, repeated: &str) -> Result<(), Fail> {
    let (count, piece) = repeated.split_once(':').ok_or("braces without a number")?;
    let count: u32 = count.parse()?;
    for before in 0..count {
        add_numbered(out, piece, before + 1)?;
    }
    Ok(())
}

/// The text with all its pieces.
pub fn repeated(alloc: Global, text: &str) -> Result<String, Fail> {
    let mut out = String::new(alloc);
    for part in text.split('{') {
        match part.split_once('}') {
            Some((repeated, rest)) => {
                add_repeated(&mut out, repeated)?;
                out.push_str(rest)?;
            }
            None => out.push_str(part)?,
        }
    }
    Ok(out)
}
