//! Outcomes as texts.
use geo_base::{Outcome, RowId, print_row};
use std::fmt::Write;
use std::test::Fail;

/// The row's name: its table, and its key as a row.
pub fn add_name(out: &mut String, row: &RowId) -> Result<(), Fail> {
    write!(out, "{}", row.table)?;
    Ok(print_row(out, row.key.cells())?)
}

/// The outcome, as `beaten 0(7) by 1.0.3`.
pub fn add_outcome(out: &mut String, outcome: &Outcome) -> Result<(), Fail> {
    match outcome {
        Outcome::Committed => out.push_str("committed")?,
        Outcome::Changed(row, epoch) => {
            out.push_str("changed ")?;
            add_name(out, row)?;
            write!(out, " in {epoch}")?;
        }
        Outcome::Beaten(row, winner) => {
            out.push_str("beaten ")?;
            add_name(out, row)?;
            write!(out, " by {}.{}.{}", winner.epoch, winner.region, winner.csn)?;
        }
    }
    Ok(())
}
