//! Cells that stand at a place.
ghost use Rattle.std.specs.Prelude.{◌≡◌, ◌≤◌, ◌⊎◌, length, true, false, IfOk, IfErr, MatchOption};
ghost use Rattle.std.specs.Str.{is_utf8};
ghost use Rattle.row_codec.specs.declared.fault.CellReadFault.TheVariants.{NoMemory};
ghost use Rattle.geo_base.specs.Results.{Gives, Reads, Refuses};
ghost use Rattle.row_codec.specs.Faults.{IsFaultAt, IsFaultOfCells};
ghost use Rattle.row_codec.specs.Spelling.{CellStands, CellsStand};
ghost use Rattle.row_codec.specs.inner.Reading.{length_at, content_at, text_at, int_cell_at, text_cell_at, tagged_at, cell_at, cells_at};

use crate::fault::CellReadFault;
use crate::fields::{read_byte, read_field, read_u16, read_u64};
use crate::tag;
use geo_base::limits::MAX_TEXT_BYTES;
use geo_base::{Cell, Txt, TxtFault};
use std::alloc::Global;

#[tactic(auto, unfolding(crate::specs::inner::Reading::int_cell_at))]
fn read_int(bytes: &[u8], at: usize) -> Result<(Cell, usize), CellReadFault>
    requires { at ≤ length bytes.now }
    ensures exact { Gives NoMemory (λ x. x) result (int_cell_at bytes.now at) }
    ensures within { IfOk result (λ x. x.1 ≤ length bytes.now) }
{
    let (number, next) = read_u64::<CellReadFault>(bytes, at)?;
    Ok((Cell::Int(number.cast_signed()), next))
}

/// The length of a text.
#[tactic(auto, unfolding(crate::specs::inner::Reading::length_at))]
fn read_length(bytes: &[u8], at: usize) -> Result<(u16, usize), CellReadFault>
    requires { at ≤ length bytes.now }
    ensures exact { Gives NoMemory (λ x. x) result (length_at bytes.now at) }
    ensures within { IfOk result (λ x. x.1 ≤ length bytes.now) }
{
    let (count, next) = read_u16::<CellReadFault>(bytes, at)?;
    if count as usize > MAX_TEXT_BYTES {
        return Err(CellReadFault::TooLong(at));
    }
    Ok((count, next))
}

/// The bytes as a text, where they are UTF-8.
#[tactic(auto, using(crate::proofs::Texts::utf8_tests))]
fn utf8_of(bytes: &[u8]) -> Option<&str>
    ensures { MatchOption result (is_utf8 bytes.now ≡ false) (λ s. (s.now ≡ bytes.now) × (is_utf8 bytes.now ≡ true)) }
{
    match str::from_utf8(bytes) {
        Ok(text) => Some(text),
        Err(_) => None,
    }
}

#[tactic(auto, unfolding(crate::specs::inner::Reading::content_at))]
fn read_content(bytes: &[u8], at: usize, count: usize) -> Result<(&str, usize), CellReadFault>
    requires { at ≤ length bytes.now }
    ensures exact { Gives NoMemory (λ x. (x.0.now, x.1)) result (content_at count bytes.now at) }
    ensures within { IfOk result (λ x. x.1 ≤ length bytes.now) }
    ensures len { IfOk result (λ x. length x.0.now ≡ count) }
{
    let (field, next) = read_field::<CellReadFault>(bytes, at, count)?;
    match utf8_of(field) {
        Some(text) => Ok((text, next)),
        None => Err(CellReadFault::BadUtf8(at)),
    }
}

#[tactic(auto, unfolding(crate::specs::inner::Reading::length_at, crate::specs::inner::Reading::text_at))]
fn read_text(alloc: Global, bytes: &[u8], at: usize) -> Result<(Txt, usize), CellReadFault>
    requires { at ≤ length bytes.now }
    ensures exact { Gives NoMemory (λ x. x) result (text_at bytes.now at) }
    ensures within { IfOk result (λ x. x.1 ≤ length bytes.now) }
{
    let (count, from) = read_length(bytes, at)?;
    let (text, next) = read_content(bytes, from, count as usize)?;
    match Txt::new(alloc, text) {
        Ok(text) => Ok((text, next)),
        Err(TxtFault::TooLong) => Err(CellReadFault::TooLong(at)),
        Err(TxtFault::NoMemory) => Err(CellReadFault::NoMemory),
    }
}

#[tactic(auto, unfolding(crate::specs::inner::Reading::text_cell_at))]
fn read_text_cell(alloc: Global, bytes: &[u8], at: usize) -> Result<(Cell, usize), CellReadFault>
    requires { at ≤ length bytes.now }
    ensures exact { Gives NoMemory (λ x. x) result (text_cell_at bytes.now at) }
    ensures within { IfOk result (λ x. x.1 ≤ length bytes.now) }
{
    let (text, next) = read_text(alloc, bytes, at)?;
    Ok((Cell::Text(text), next))
}

/// The cell of a tag, which stands at `at`; what the tag wants stands at `next`.
#[tactic(auto, unfolding(crate::specs::inner::Reading::tagged_at))]
fn read_tagged(
    alloc: Global,
    bytes: &[u8],
    tag: u8,
    at: usize,
    next: usize,
) -> Result<(Cell, usize), CellReadFault>
    requires { next ≤ length bytes.now }
    ensures exact { Gives NoMemory (λ x. x) result (tagged_at tag bytes.now at next) }
    ensures within { IfOk result (λ x. x.1 ≤ length bytes.now) }
{
    match tag {
        tag::NULL => Ok((Cell::Null, next)),
        tag::INT => read_int(bytes, next),
        tag::TEXT => read_text_cell(alloc, bytes, next),
        tag::FALSE => Ok((Cell::Truth(false), next)),
        tag::TRUE => Ok((Cell::Truth(true), next)),
        _ => Err(CellReadFault::BadTag(at)),
    }
}

/// The cell whose tag stands at the place.
#[tactic(auto, unfolding(crate::specs::inner::Reading::cell_at))]
fn read_from_tag(alloc: Global, bytes: &[u8], at: usize) -> Result<(Cell, usize), CellReadFault>
    requires { at ≤ length bytes.now }
    ensures exact { Gives NoMemory (λ x. x) result (cell_at bytes.now at) }
    ensures within { IfOk result (λ x. x.1 ≤ length bytes.now) }
{
    let (tag, next) = read_byte::<CellReadFault>(bytes, at)?;
    read_tagged(alloc, bytes, tag, at, next)
}

/// The cell whose spelling stands at the place, and the place behind it.
pub fn read_cell(alloc: Global, bytes: &[u8], at: usize) -> Result<(Cell, usize), CellReadFault>
    requires { at ≤ length bytes.now }
    ensures found { IfOk result (λ x. CellStands bytes.now at x) }
    ensures only { Reads NoMemory (λ x. x) result (CellStands bytes.now at) }
    ensures fault { IfErr result (λ e. (e ≡ NoMemory) ⊎ IsFaultAt bytes.now at e) }
    ensures refused { Refuses NoMemory result (IsFaultAt bytes.now at) }
    ensures within { IfOk result (λ x. x.1 ≤ length bytes.now) }
{
    read_from_tag(alloc, bytes, at)
}

fn read_one_after_another(
    alloc: Global,
    bytes: &[u8],
    at: usize,
    count: u8,
) -> Result<(Vec<Cell>, usize), CellReadFault>
    requires { at ≤ length bytes.now }
    ensures exact { Gives NoMemory (λ x. (x.0.items, x.1)) result (cells_at bytes.now at count) }
    ensures within { IfOk result (λ x. x.1 ≤ length bytes.now) }
{
    let mut cells = Vec::new(alloc);
    let mut next = at;
    for _ in 0..count {
        let (cell, behind) = read_from_tag(alloc, bytes, next)?;
        cells.push(cell)?;
        next = behind;
    }
    Ok((cells, next))
}

/// So many cells whose spellings stand one after another from the place on, and the place behind
/// them.
pub fn read_cells(
    alloc: Global,
    bytes: &[u8],
    at: usize,
    count: u8,
) -> Result<(Vec<Cell>, usize), CellReadFault>
    requires { at ≤ length bytes.now }
    ensures found { IfOk result (λ x. (length x.0.items ≡ count) × CellsStand bytes.now at (x.0.items, x.1)) }
    ensures only { Reads NoMemory (λ x. (x.0.items, x.1)) result (λ x. (length x.0 ≡ count) × CellsStand bytes.now at x) }
    ensures fault { IfErr result (λ e. (e ≡ NoMemory) ⊎ IsFaultOfCells bytes.now at count e) }
    ensures refused { Refuses NoMemory result (IsFaultOfCells bytes.now at count) }
    ensures within { IfOk result (λ x. x.1 ≤ length bytes.now) }
{
    read_one_after_another(alloc, bytes, at, count)
}
