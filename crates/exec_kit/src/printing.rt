//! What statements are answered, as texts, each behind a space.
use geo_base::{NoMemory, RowId, Txt, print_row};
use row_source::ExecFault;
use sql_exec::LineList;
use write_set::{Change, WriteSet};

/// More lines, or more rows of a net, are told by their number.
const MANY: usize = 100;

/// What is answered as a text.
pub trait Print {
    fn print(&self, out: &mut String) -> Result<(), NoMemory>;
}

fn print_number(out: &mut String, number: u64, what: &str) -> Result<(), NoMemory> {
    Ok(write!(out, " {number}{what}")?)
}

fn print_lines(out: &mut String, lines: &LineList) -> Result<(), NoMemory> {
    for line in lines.items() {
        out.push_str(" ")?;
        print_row(out, line.cells())?;
    }
    Ok(())
}

impl Print for LineList {
    /// Each line, or how many they are.
    fn print(&self, out: &mut String) -> Result<(), NoMemory> {
        let count = self.items().len();
        if count <= MANY {
            print_lines(out, self)
        } else {
            print_number(out, count as u64, " lines")
        }
    }
}

fn print_name(out: &mut String, sign: &str, row: &RowId) -> Result<(), NoMemory> {
    let table = row.table;
    write!(out, " {sign}{table} ")?;
    print_row(out, row.key.cells())
}

fn print_change(out: &mut String, row: &RowId, change: &Change) -> Result<(), NoMemory> {
    match change {
        Change::Put(image) => {
            print_name(out, "+", row)?;
            out.push_str(" ")?;
            print_row(out, image.cells())
        }
        Change::Remove => print_name(out, "-", row),
        Change::Touch => print_name(out, "", row),
    }
}

fn print_changes(out: &mut String, net: &WriteSet) -> Result<(), NoMemory> {
    for (row, change) in net.changes() {
        print_change(out, row, change)?;
    }
    Ok(())
}

impl Print for WriteSet {
    /// A change for each row, in rising order: a `-` in front of a removal, a `+` in front of a put and nothing in front
    /// of a touch, then the table and the key, and behind a put the image. Of a large net only its rows are counted, and
    /// its bytes.
    fn print(&self, out: &mut String) -> Result<(), NoMemory> {
        let count = self.changes().len();
        if count <= MANY {
            print_changes(out, self)
        } else {
            print_number(out, count as u64, " rows of")?;
            print_number(out, self.size(), " bytes")
        }
    }
}

impl Print for u32 {
    /// How many rows are changed.
    fn print(&self, out: &mut String) -> Result<(), NoMemory> {
        print_number(out, u64::from(*self), "")
    }
}

fn fault_name(fault: &ExecFault) -> &'static str {
    match fault {
        ExecFault::Duplicate(_) => " Duplicate",
        ExecFault::NullNotAllowed(_) => " NullNotAllowed ",
        ExecFault::TextTooLong(_) => " TextTooLong ",
        ExecFault::Overflow => " Overflow",
        ExecFault::DivideByZero => " DivideByZero",
        ExecFault::ResultTooLong => " ResultTooLong",
        ExecFault::TooManyRows => " TooManyRows",
        ExecFault::TooLarge => " TooLarge",
        ExecFault::NoMemory => " NoMemory",
    }
}

impl Print for ExecFault {
    /// Its name, and the row or the column that it names.
    fn print(&self, out: &mut String) -> Result<(), NoMemory> {
        out.push_str(fault_name(self))?;
        match self {
            ExecFault::Duplicate(row) => print_name(out, "", row),
            ExecFault::NullNotAllowed(name) | ExecFault::TextTooLong(name) => {
                Ok(out.push_str(name.text())?)
            }
            _ => Ok(()),
        }
    }
}

/// Writes an answer or a fault.
pub fn print_answer<T: Print + Drop>(
    out: &mut String,
    answer: Result<T, ExecFault>,
) -> Result<(), NoMemory> {
    let printed = match &answer {
        Ok(value) => value.print(out),
        Err(fault) => fault.print(out),
    };
    drop(answer);
    printed
}

/// Writes an answer, and behind a semicolon the net after it; or a fault.
pub fn print_done<T: Print + Drop>(
    out: &mut String,
    answer: Result<T, ExecFault>,
    own: &WriteSet,
) -> Result<(), NoMemory> {
    let done = answer.is_ok();
    print_answer(out, answer)?;
    if done {
        out.push_str(";")?;
        own.print(out)?;
    }
    Ok(())
}

/// Writes the lines of a plan, each behind a bar.
pub fn print_plan(out: &mut String, lines: &[Txt]) -> Result<(), NoMemory> {
    for line in lines {
        out.push_str(" | ")?;
        out.push_str(line.text())?;
    }
    Ok(())
}
