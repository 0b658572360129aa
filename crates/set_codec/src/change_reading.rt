//! Changes, whose rows rise.
ghost use Rattle.std.specs.Prelude.{◌≡◌, ◌≤◌, ◌<◌, length, IfOk};
ghost use Rattle.std.specs.Option.{option_copied};
ghost use Rattle.geo_base.specs.Results.{Gives};
ghost use Rattle.geo_schema.specs.Schemas.{table_at};
ghost use Rattle.geo_schema.specs.Tables.{TakesRows};
ghost use Rattle.set_codec.specs.declared.fault.CodecFault.TheVariants.{NoMemory};
ghost use Rattle.set_codec.specs.inner.Reading.{is_after, table_no_at, done_at, change_at, last_row, changes_at};

use crate::fault::CodecFault;
use crate::fields::read_kind;
use crate::format::Format;
use crate::kind::Kind;
use crate::row_reading::{read_key, read_row};
use geo_base::{RowId, RowImage, TableNo};
use geo_schema::{Schema, TableDef};
use row_codec::fields::read_byte;
use std::alloc::Global;
use write_set::Change;

/// The number of a table, and the table.
#[tactic(auto, unfolding(crate::specs::inner::Reading::table_no_at))]
fn read_table<'a>(
    schema: &'a Schema,
    bytes: &[u8],
    at: usize,
) -> Result<(TableNo, &'a TableDef, usize), CodecFault>
    requires { at ≤ length bytes.now }
    ensures exact { Gives NoMemory (λ x. (x.0, x.2)) result (table_no_at schema.entry.now bytes.now at) }
    ensures table { IfOk result (λ x. x.1.now ≡ table_at schema.entry.now x.0) }
    ensures rows { IfOk result (λ x. TakesRows x.1.now) }
    ensures within { IfOk result (λ x. x.2 ≤ length bytes.now) }
{
    let (no, next) = read_byte::<CodecFault>(bytes, at)?;
    match schema.table(no) {
        Some(table) => Ok((no, table, next)),
        None => Err(CodecFault::BadRow(at)),
    }
}

/// Whether the row is greater than the one before it.
fn is_after(last: Option<&RowId>, row: &RowId) -> bool
    ensures { result ≡ is_after (option_copied last.entry) row.now }
{
    match last {
        None => true,
        Some(last) => last.cmp(row).is_lt(),
    }
}

/// What is done to a row that is known.
#[tactic(auto, using(crate::specs::laws::Rows::columns_are_few, crate::specs::laws::Rows::columns_are_some), unfolding(crate::specs::inner::Reading::done_at))]
fn read_done(
    alloc: Global,
    table: &TableDef,
    row: RowId,
    kind: Kind,
    bytes: &[u8],
    at: usize,
) -> Result<((RowId, Change), usize), CodecFault>
    requires place { at ≤ length bytes.now }
    requires rows { TakesRows table.now }
    requires len { length row.key ≡ length table.now.key }
    ensures exact { Gives NoMemory (λ x. x) result (done_at table.now row kind bytes.now at) }
    ensures within { IfOk result (λ x. x.1 ≤ length bytes.now) }
{
    match kind {
        Kind::Put => {
            let (cells, next) = read_row(alloc, table, row.key.cells(), bytes, at)?;
            let image = RowImage::new(cells).unwrap();
            Ok(((row, Change::Put(image)), next))
        }
        Kind::Remove => Ok(((row, Change::Remove), at)),
        Kind::Touch => Ok(((row, Change::Touch), at)),
    }
}

/// A change, of a row greater than the last one.
#[tactic(auto, unfolding(crate::specs::inner::Reading::change_at))]
fn read_change(
    alloc: Global,
    schema: &Schema,
    format: Format,
    last: Option<&RowId>,
    bytes: &[u8],
    at: usize,
) -> Result<((RowId, Change), usize), CodecFault>
    requires { at ≤ length bytes.now }
    ensures exact { Gives NoMemory (λ x. x) result (change_at format schema.now (option_copied last.entry) bytes.now at) }
    ensures within { IfOk result (λ x. x.1 ≤ length bytes.now) }
{
    let (no, table, next) = read_table(schema, bytes, at)?;
    let (kind, next) = read_kind(bytes, next, format)?;
    let (key, next) = read_key(alloc, table, bytes, next)?;
    let row = RowId { table: no, key };
    if !is_after(last, &row) {
        return Err(CodecFault::NotOrdered(at));
    }
    read_done(alloc, table, row, kind, bytes, next)
}

/// The row of the last change.
#[tactic(auto, using(crate::proofs::Rows::last_got, crate::proofs::Rows::last_is))]
fn last_row(changes: &[(RowId, Change)]) -> Option<&RowId>
    ensures { option_copied result ≡ last_row changes.entry.now }
{
    match changes.last() {
        Some(change) => Some(&change.0),
        None => None,
    }
}

/// So many changes, of rows that rise.
#[tactic(auto, unfolding(crate::specs::inner::Reading::changes_at))]
pub(crate) fn read_changes(
    alloc: Global,
    schema: &Schema,
    format: Format,
    count: u32,
    bytes: &[u8],
    at: usize,
) -> Result<(Vec<(RowId, Change)>, usize), CodecFault>
    requires { at ≤ length bytes.now }
    ensures exact { Gives NoMemory (λ x. (x.0.items, x.1)) result (changes_at format schema.now count bytes.now at) }
    ensures within { IfOk result (λ x. x.1 ≤ length bytes.now) }
{
    let mut changes: Vec<(RowId, Change)> = Vec::new(alloc);
    let mut next = at;
    for _ in 0..count {
        let last = last_row(changes.as_slice());
        let (change, behind) = read_change(alloc, schema, format, last, bytes, next)?;
        changes.push(change)?;
        next = behind;
    }
    Ok((changes, next))
}
