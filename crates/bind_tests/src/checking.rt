//! Statements and what is wanted of them, as lines of a text.
use crate::bound::answer;
use geo_schema::Schema;
use std::alloc::Global;
use std::test::Fail;

/// So many items `id` behind the head of a query.
fn repeated(alloc: Global, count: u32, head: &str) -> Result<String, Fail> {
    let mut query = String::from_str(alloc, head)?;
    for _ in 0..count {
        query.push_str("id, ")?;
    }
    Ok(query)
}

/// The statement of a text, in which two dots stand for so many items `id` as the number before it says.
fn statement(alloc: Global, text: &str) -> Result<String, Fail> {
    let Some((head, last)) = text.split_once("..") else {
        return Ok(String::from_str(alloc, text)?);
    };
    let Some((count, head)) = head.split_once(" ") else {
        return Ok(String::from_str(alloc, text)?);
    };
    let mut query = repeated(alloc, count.parse::<u32>()?, head)?;
    query.push_str(last)?;
    Ok(query)
}

/// The line and what its statement is answered, if that isn't what the line says.
fn wrong(alloc: Global, schema: &Schema, line: &str) -> Result<Option<String>, Fail> {
    let Some((text, want)) = line.split_once(" => ") else {
        return Ok(Some(String::from_str(alloc, line)?));
    };
    let statement = statement(alloc, text)?;
    let found = answer(alloc, schema, statement.as_str())?;
    if found.as_str() == want {
        return Ok(None);
    }
    Ok(Some(format!(in alloc; "{line}, but found {found}")?))
}

/// The first line whose statement isn't answered as it says. Each line has a statement, an arrow and the
/// answer; empty lines have none.
pub fn first_wrong(alloc: Global, schema: &Schema, lines: &str) -> Result<Option<String>, Fail> {
    for line in lines.lines() {
        if !line.is_empty() {
            if let Some(wrong) = wrong(alloc, schema, line)? {
                return Ok(Some(wrong));
            }
        }
    }
    Ok(None)
}
