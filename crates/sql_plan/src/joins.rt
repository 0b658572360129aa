//! How the rows of the right table that belong to a left row are found.
ghost use Rattle.std.specs.Prelude.{◌≡◌, nat_eq, map, IfOk};
ghost use Rattle.std.specs.List.{find, list_any};
ghost use Rattle.std.specs.Option.{option_copied, option_map};
ghost use Rattle.row_source.specs.declared.plan.KeyPart.TheVariants as part;
ghost use Rattle.sql_plan.specs.Plans as plans;
ghost use Rattle.sql_plan.specs.inner.Borrowed.{seen_link, usable};

use crate::links::Link;
use crate::ranges::equal_cell;
use crate::tests::TableTests;
use geo_base::{Duplicate, Many, NoMemory};
use geo_schema::TableDef;
use row_source::{JoinKind, KeyPart};
use std::alloc::Global;

/// The first link of the right column.
fn find_link(links: &[Link], column: u16) -> Option<&Link>
    ensures { option_copied result ≡ find (λ l. nat_eq l.right column) links.entry.now }
{
    links.iter().find(|link| link.right == column)
}

/// The left column that the right column is linked to first.
#[tactic(auto, using(crate::proofs::Parts::linked_seen))]
fn linked_column(links: &[Link], column: u8) -> Option<u16>
    ensures { result ≡ plans.linked_column (map seen_link links.now) column }
{
    match find_link(links, u16::from(column)) {
        Some(link) => Some(link.left),
        None => None,
    }
}

/// The left column as a part, if there is one.
fn left_part(column: Option<u16>) -> Option<KeyPart>
    ensures { result ≡ option_map part.Left column }
{
    match column {
        Some(column) => Some(KeyPart::Left(column)),
        None => None,
    }
}

/// What the column of the right key is equal to: a literal before a left column.
fn part_of(
    alloc: Global,
    tests: &TableTests,
    links: &[Link],
    column: u8,
) -> Result<Option<KeyPart>, NoMemory>
    ensures { IfOk result (λ part. part ≡ plans.part_of (usable tests.now) (map seen_link links.now) column) }
{
    match equal_cell(tests, column) {
        Some(literal) => Ok(Some(KeyPart::Lit(literal.copy(alloc)?))),
        None => Ok(left_part(linked_column(links, column))),
    }
}

/// The parts of all columns of the right key, where each has one.
#[tactic(auto, using(crate::proofs::Parts::parts_begin, crate::proofs::Parts::one_more_part, crate::proofs::Parts::part_missing, crate::proofs::Parts::parts_end))]
fn parts_of(
    alloc: Global,
    tests: &TableTests,
    links: &[Link],
    columns: &[u8],
) -> Result<Option<Vec<KeyPart>>, NoMemory>
    ensures { IfOk result (λ parts. option_map (λ some. some.items) parts ≡ plans.parts_of (usable tests.now) (map seen_link links.now) columns.now) }
{
    let mut parts = Vec::new(alloc);
    for column in columns {
        match part_of(alloc, tests, links, *column)? {
            Some(part) => parts.push(part)?,
            None => return Ok(None),
        }
    }
    Ok(Some(parts))
}

/// Whether the part is a column of the left table.
fn is_left(part: &KeyPart) -> bool
    ensures { result ≡ plans.is_left part.now }
{
    matches!(part, KeyPart::Left(_))
}

/// Whether one of the parts is a column of the left table.
fn has_left(parts: &[KeyPart]) -> bool
    ensures { result ≡ list_any plans.is_left parts.now }
{
    parts.iter().any(|part| is_left(part))
}

/// The join by the first link, and where there is none, each row with each.
fn join_by_links(links: &[Link]) -> JoinKind
    ensures { result ≡ plans.join_by_links (map seen_link links.now) }
{
    match links.first() {
        Some(link) => JoinKind::Hashed(link.left, link.right),
        None => JoinKind::Nested,
    }
}

/// The join by the key's parts, where they are there and one of them is a left column, and else by the links.
fn join_by_parts(links: &[Link], parts: Option<Vec<KeyPart>>) -> JoinKind
    ensures { result ≡ plans.join_by_parts (map seen_link links.now) (option_map (λ some. some.items) parts) }
{
    let Some(parts) = parts else {
        return join_by_links(links);
    };
    if has_left(parts.as_slice()) {
        return JoinKind::ByKey(Many::new(parts));
    }
    join_by_links(links)
}

/// The join to the right table, by its tests and links. Takes, for each column of the key, a step for each test and
/// link.
#[tactic(auto, unfolding(crate::specs::Plans::join_of))]
pub(crate) fn join_of(
    alloc: Global,
    table: &TableDef,
    tests: &TableTests,
    links: &[Link],
) -> Result<JoinKind, NoMemory>
    ensures { IfOk result (λ join. join ≡ plans.join_of table.now (usable tests.now) (map seen_link links.now)) }
{
    let parts = parts_of(alloc, tests, links, table.key.items())?;
    Ok(join_by_parts(links, parts))
}
