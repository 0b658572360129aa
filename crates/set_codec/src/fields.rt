//! The fields that are no cells.
ghost use Rattle.std.specs.Prelude.{◌≡◌, ◌≤◌, ◌<◌, length, IfOk};
ghost use Rattle.geo_base.specs.declared.limits.TheConstants.{LAST_EPOCH, MAX_SET_ROWS};
ghost use Rattle.geo_base.specs.Results.{Gives};
ghost use Rattle.set_codec.specs.declared.fault.CodecFault.TheVariants.{NoMemory};
ghost use Rattle.set_codec.specs.inner.Reading.{format_named, mark_at, region_at, is_other, other_at, epoch_at, count_at, start_at, rows_at, kind_named, kind_at, end_at};

use crate::fault::{CodecFault, Limit};
use crate::format::Format;
use crate::kind::Kind;
use crate::{format, kind};
use geo_base::limits::{LAST_EPOCH, MAX_AGE, MAX_CANDIDATES, MAX_SET_ROWS};
use geo_base::{Epoch, RegionNo};
use row_codec::fields::{read_byte, read_field, read_u32};

/// The format that has the mark, if there is one.
fn format_named(mark: &[u8]) -> Option<Format>
    ensures { result ≡ format_named mark.now }
{
    if mark == format::GGB1.as_slice() {
        Some(Format::Ggb1)
    } else if mark == format::GGB2.as_slice() {
        Some(Format::Ggb2)
    } else {
        None
    }
}

/// The format of a batch, by the mark that it begins with.
#[tactic(auto, unfolding(crate::specs::inner::Reading::mark_at))]
pub(crate) fn read_mark(bytes: &[u8], at: usize) -> Result<(Format, usize), CodecFault>
    requires { at ≤ length bytes.now }
    ensures exact { Gives NoMemory (λ x. x) result (mark_at bytes.now at) }
    ensures within { IfOk result (λ x. x.1 ≤ length bytes.now) }
{
    let (field, next) = read_field::<CodecFault>(bytes, at, 4)?;
    match format_named(field) {
        Some(format) => Ok((format, next)),
        None => Err(CodecFault::BadTag(at)),
    }
}

/// The number of one of so many regions.
#[tactic(auto, unfolding(crate::specs::inner::Reading::region_at))]
pub(crate) fn read_region(
    bytes: &[u8],
    at: usize,
    regions: u8,
) -> Result<(RegionNo, usize), CodecFault>
    requires { at ≤ length bytes.now }
    ensures exact { Gives NoMemory (λ x. x) result (region_at regions bytes.now at) }
    ensures within { IfOk result (λ x. x.1 ≤ length bytes.now) }
{
    let (region, next) = read_byte::<CodecFault>(bytes, at)?;
    if region >= regions {
        return Err(CodecFault::BadTag(at));
    }
    Ok((region, next))
}

fn is_other(one: Option<RegionNo>, region: RegionNo) -> bool
    ensures { result ≡ is_other one region }
{
    match one {
        Some(one) => region != one,
        None => true,
    }
}

/// The number of one of so many regions, which isn't the given one: that is the fault of the field at `blamed`.
#[tactic(auto, unfolding(crate::specs::inner::Reading::other_at))]
pub(crate) fn read_other(
    bytes: &[u8],
    at: usize,
    regions: u8,
    one: Option<RegionNo>,
    blamed: usize,
) -> Result<(RegionNo, usize), CodecFault>
    requires { at ≤ length bytes.now }
    ensures exact { Gives NoMemory (λ x. x) result (other_at regions one blamed bytes.now at) }
    ensures within { IfOk result (λ x. x.1 ≤ length bytes.now) }
{
    let (region, next) = read_region(bytes, at, regions)?;
    if !is_other(one, region) {
        return Err(CodecFault::BadTag(blamed));
    }
    Ok((region, next))
}

/// An epoch that can be sealed.
#[tactic(auto, unfolding(crate::specs::inner::Reading::epoch_at))]
pub(crate) fn read_epoch(bytes: &[u8], at: usize) -> Result<(Epoch, usize), CodecFault>
    requires { at ≤ length bytes.now }
    ensures exact { Gives NoMemory (λ x. x) result (epoch_at bytes.now at) }
    ensures within { IfOk result (λ x. x.1 ≤ length bytes.now) }
    ensures sealed { IfOk result (λ x. x.0 < LAST_EPOCH) }
{
    let (epoch, next) = read_u32::<CodecFault>(bytes, at)?;
    if epoch < 1 || epoch >= LAST_EPOCH {
        return Err(CodecFault::BadTag(at));
    }
    Ok((epoch, next))
}

/// The number of candidates.
#[tactic(auto, unfolding(crate::specs::inner::Reading::count_at))]
pub(crate) fn read_count(bytes: &[u8], at: usize) -> Result<(u32, usize), CodecFault>
    requires { at ≤ length bytes.now }
    ensures exact { Gives NoMemory (λ x. x) result (count_at bytes.now at) }
    ensures within { IfOk result (λ x. x.1 ≤ length bytes.now) }
{
    let (count, next) = read_u32::<CodecFault>(bytes, at)?;
    if count > MAX_CANDIDATES {
        return Err(CodecFault::OverLimit(at, Limit::Candidates));
    }
    Ok((count, next))
}

/// The start of a candidate of the epoch.
#[tactic(auto, unfolding(crate::specs::inner::Reading::start_at))]
pub(crate) fn read_start(
    bytes: &[u8],
    at: usize,
    epoch: Epoch,
) -> Result<(Epoch, usize), CodecFault>
    requires { at ≤ length bytes.now }
    ensures exact { Gives NoMemory (λ x. x) result (start_at epoch bytes.now at) }
    ensures within { IfOk result (λ x. x.1 ≤ length bytes.now) }
{
    let (start, next) = read_u32::<CodecFault>(bytes, at)?;
    if start >= epoch || epoch - start > MAX_AGE {
        return Err(CodecFault::BadStart(at));
    }
    Ok((start, next))
}

/// The number of a candidate's rows.
#[tactic(auto, unfolding(crate::specs::inner::Reading::rows_at))]
pub(crate) fn read_rows(bytes: &[u8], at: usize) -> Result<(u32, usize), CodecFault>
    requires { at ≤ length bytes.now }
    ensures exact { Gives NoMemory (λ x. x) result (rows_at bytes.now at) }
    ensures within { IfOk result (λ x. x.1 ≤ length bytes.now) }
    ensures few { IfOk result (λ x. x.0 ≤ MAX_SET_ROWS) }
{
    let (rows, next) = read_u32::<CodecFault>(bytes, at)?;
    if rows < 1 || rows > MAX_SET_ROWS {
        return Err(CodecFault::OverLimit(at, Limit::Rows));
    }
    Ok((rows, next))
}

/// The kind of change that has the byte, if it is one of the format.
fn kind_named(format: Format, byte: u8) -> Option<Kind>
    ensures { result ≡ kind_named format byte }
{
    match byte {
        kind::PUT => Some(Kind::Put),
        kind::REMOVE => Some(Kind::Remove),
        kind::TOUCH => match format {
            Format::Ggb1 => None,
            Format::Ggb2 => Some(Kind::Touch),
        },
        _ => None,
    }
}

/// The kind of a change, one of the format.
#[tactic(auto, unfolding(crate::specs::inner::Reading::kind_at))]
pub(crate) fn read_kind(
    bytes: &[u8],
    at: usize,
    format: Format,
) -> Result<(Kind, usize), CodecFault>
    requires { at ≤ length bytes.now }
    ensures exact { Gives NoMemory (λ x. x) result (kind_at format bytes.now at) }
    ensures within { IfOk result (λ x. x.1 ≤ length bytes.now) }
{
    let (byte, next) = read_byte::<CodecFault>(bytes, at)?;
    match kind_named(format, byte) {
        Some(kind) => Ok((kind, next)),
        None => Err(CodecFault::BadTag(at)),
    }
}

/// The bytes end at the place.
#[tactic(auto, unfolding(crate::specs::inner::Reading::end_at))]
pub(crate) fn read_end<T: Drop>(value: T, bytes: &[u8], at: usize) -> Result<T, CodecFault>
    ensures exact { Gives NoMemory (λ x. x) result (end_at value bytes.now at) }
{
    if at < bytes.len() {
        return Err(CodecFault::Trailing(at));
    }
    Ok(value)
}
