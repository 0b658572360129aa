//! Plans as texts. A point has the cells of its key. A range has its low edge, which is `from` cells that are within
//! or `above` cells that are outside, and its high one, which is `to` or `below`; an open edge has no text.
use geo_base::{Cell, NoMemory, Printed, print_row};
use geo_schema::{Edge, KeyRange};
use row_source::{Access, JoinKind, KeyPart, Plan, Second};
use std::fmt::Write;

fn print_edge(out: &mut String, within: &str, outside: &str, edge: &Edge) -> Result<(), NoMemory> {
    match edge {
        Edge::Open => Ok(()),
        Edge::Incl(cells) => {
            out.push_str(within)?;
            print_row(out, cells.items())
        }
        Edge::Excl(cells) => {
            out.push_str(outside)?;
            print_row(out, cells.items())
        }
    }
}

fn print_range(out: &mut String, range: &KeyRange) -> Result<(), NoMemory> {
    print_edge(out, " from ", " above ", &range.low)?;
    print_edge(out, " to ", " below ", &range.high)
}

fn print_access(out: &mut String, way: &Access) -> Result<(), NoMemory> {
    match way {
        Access::Point(key) => {
            out.push_str("point ")?;
            print_row(out, key.cells())
        }
        Access::Range(range) => {
            out.push_str("keys")?;
            print_range(out, range)
        }
        Access::Index(place, range) => {
            write!(out, "index {place}")?;
            print_range(out, range)
        }
        Access::Scan => Ok(out.push_str("scan")?),
    }
}

fn print_part(out: &mut String, part: &KeyPart) -> Result<(), NoMemory> {
    match part {
        KeyPart::Lit(cell) => {
            out.push_str(" ")?;
            cell.print_to(out)
        }
        KeyPart::Left(column) => Ok(write!(out, " #{column}")?),
    }
}

fn print_join(out: &mut String, join: &JoinKind) -> Result<(), NoMemory> {
    match join {
        JoinKind::Nested => Ok(out.push_str(" nested")?),
        JoinKind::ByKey(parts) => {
            out.push_str(" by key")?;
            for part in parts.items() {
                print_part(out, part)?;
            }
            Ok(())
        }
        JoinKind::Hashed(left, right) => Ok(write!(out, " hashed #{left} #{right}")?),
    }
}

fn print_second(out: &mut String, second: &Second) -> Result<(), NoMemory> {
    out.push_str("; ")?;
    print_access(out, &second.access)?;
    print_join(out, &second.join)
}

/// Puts the plan's text at the end.
pub fn print_plan(out: &mut String, plan: &Plan) -> Result<(), NoMemory> {
    print_access(out, &plan.first)?;
    match &plan.second {
        Some(second) => print_second(out, second),
        None => Ok(()),
    }
}
