//! Texts that are made of pieces, each so many times.
use std::alloc::{AllocError, Global};

fn push_many(out: &mut String, piece: &str, count: usize) -> Result<(), AllocError> {
    for _ in 0..count {
        out.push_str(piece)?;
    }
    Ok(())
}

/// The text of the pieces, each so many times.
pub fn text_of(alloc: Global, pieces: &[(&str, usize)]) -> Result<String, AllocError> {
    let mut text = String::new(alloc);
    for (piece, count) in pieces {
        push_many(&mut text, piece, *count)?;
    }
    Ok(text)
}

/// The text of the pieces, with blanks behind them up to so many bytes.
pub fn padded(alloc: Global, pieces: &[(&str, usize)], bytes: usize) -> Result<String, AllocError> {
    let mut text = text_of(alloc, pieces)?;
    let blanks = bytes.saturating_sub(text.len());
    push_many(&mut text, " ", blanks)?;
    Ok(text)
}
