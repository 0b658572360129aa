//! Pairs of rows and faults as texts.
use geo_base::{NoMemory, print_row};
use row_source::{ExecFault, Pair};

fn print_pairs(out: &mut String, pairs: &[Pair]) -> Result<(), NoMemory> {
    for pair in pairs {
        out.push_str(" ")?;
        print_row(out, pair.left.cells())?;
        if let Some(right) = &pair.right {
            out.push_str("-")?;
            print_row(out, right.cells())?;
        }
    }
    Ok(())
}

fn fault_name(fault: &ExecFault) -> &'static str {
    match fault {
        ExecFault::Overflow => " Overflow",
        ExecFault::DivideByZero => " DivideByZero",
        ExecFault::NoMemory => " NoMemory",
        _ => " a fault of what follows",
    }
}

/// Writes each pair behind a space, its right row behind a dash, or the fault.
pub fn print_answer(
    out: &mut String,
    answer: &Result<Vec<Pair>, ExecFault>,
) -> Result<(), NoMemory> {
    match answer {
        Ok(pairs) => print_pairs(out, pairs.as_slice()),
        Err(fault) => Ok(out.push_str(fault_name(fault))?),
    }
}
