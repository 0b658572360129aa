//! What a query is answered, as a text.
use geo_base::{NoMemory, print_row};
use group_exec::LineList;
use row_source::ExecFault;

/// More lines are told by their number.
const MANY: usize = 100;

fn print_lines(out: &mut String, lines: &LineList) -> Result<(), NoMemory> {
    for line in lines.items() {
        out.push_str(" ")?;
        print_row(out, line.cells())?;
    }
    Ok(())
}

fn fault_name(fault: &ExecFault) -> &'static str {
    match fault {
        ExecFault::Overflow => " Overflow",
        ExecFault::DivideByZero => " DivideByZero",
        ExecFault::ResultTooLong => " ResultTooLong",
        ExecFault::NoMemory => " NoMemory",
        _ => " a fault of statements that write",
    }
}

fn print_some(out: &mut String, lines: &LineList) -> Result<(), NoMemory> {
    let count = lines.items().len();
    if count <= MANY {
        return print_lines(out, lines);
    }
    Ok(write!(out, " {count} lines")?)
}

/// Writes each line behind a space, or how many they are, or the fault.
pub fn print_answer(
    out: &mut String,
    answer: &Result<LineList, ExecFault>,
) -> Result<(), NoMemory> {
    match answer {
        Ok(lines) => print_some(out, lines),
        Err(fault) => Ok(out.push_str(fault_name(fault))?),
    }
}
