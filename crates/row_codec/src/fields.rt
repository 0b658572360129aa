//! Fields of bytes, read from left to right, for each reader and its own faults.
ghost use Rattle.std.specs.Prelude.{◌≡◌, ◌≤◌, length, IfOk, IfErr};
ghost use Rattle.std.specs.Int.{w16, w32, w64};
ghost use Rattle.geo_base.specs.Results.{Matches};
ghost use Rattle.row_codec.specs.Fields.{IsCut, FieldStands, ByteStands, NumberStands};
ghost use Rattle.row_codec.specs.inner.Fields.{field_at, byte_at, number_at};

/// A fault that can say that a field needs more bytes than there are.
pub trait FieldFault: Drop {
    ghost use Rattle.std.specs.Prelude.{ℕ};

    ghost short: { ℕ → Self };

    /// The fault of bytes that end at this place, within a field.
    fn short_at(end: usize) -> Self
    where
        Self: Sized,
        ensures { result ≡ short end };
}

/// So many bytes from the place on, and the place behind them.
#[tactic(auto, unfolding(crate::specs::inner::Fields::field_at))]
pub fn read_field<E: FieldFault>(bytes: &[u8], at: usize, count: usize) -> Result<(&[u8], usize), E>
    requires { at ≤ length bytes.now }
    ensures stands { IfOk result (λ x. FieldStands count bytes.now at (x.0.now, x.1)) }
    ensures cut { IfErr result (IsCut E.short count bytes.now at) }
    ensures exact { Matches (λ x. (x.0.now, x.1)) result (field_at E.short count bytes.now at) }
    ensures within { IfOk result (λ x. x.1 ≤ length bytes.now) }
{
    if bytes.len() - at < count {
        return Err(E::short_at(bytes.len()));
    }
    Ok((&bytes[at..at + count], at + count))
}

/// The byte at the place, and the place behind it.
#[tactic(auto, unfolding(crate::specs::inner::Fields::byte_at))]
pub fn read_byte<E: FieldFault>(bytes: &[u8], at: usize) -> Result<(u8, usize), E>
    requires { at ≤ length bytes.now }
    ensures stands { IfOk result (ByteStands bytes.now at) }
    ensures cut { IfErr result (IsCut E.short 1 bytes.now at) }
    ensures exact { Matches (λ x. x) result (byte_at E.short bytes.now at) }
    ensures within { IfOk result (λ x. x.1 ≤ length bytes.now) }
{
    let (field, next) = read_field::<E>(bytes, at, 1)?;
    Ok((field[0], next))
}

/// The number whose two bytes stand at the place, the higher one first, and the place behind them.
#[tactic(auto, unfolding(crate::specs::inner::Fields::number_at))]
pub fn read_u16<E: FieldFault>(bytes: &[u8], at: usize) -> Result<(u16, usize), E>
    requires { at ≤ length bytes.now }
    ensures stands { IfOk result (NumberStands w16 bytes.now at) }
    ensures cut { IfErr result (IsCut E.short 2 bytes.now at) }
    ensures exact { Matches (λ x. x) result (number_at E.short w16 bytes.now at) }
    ensures within { IfOk result (λ x. x.1 ≤ length bytes.now) }
{
    let (field, next) = read_field::<E>(bytes, at, 2)?;
    Ok((u16::from_be_bytes([field[0], field[1]]), next))
}

/// The number whose four bytes stand at the place, the highest one first, and the place behind them.
#[tactic(auto, unfolding(crate::specs::inner::Fields::number_at))]
pub fn read_u32<E: FieldFault>(bytes: &[u8], at: usize) -> Result<(u32, usize), E>
    requires { at ≤ length bytes.now }
    ensures stands { IfOk result (NumberStands w32 bytes.now at) }
    ensures cut { IfErr result (IsCut E.short 4 bytes.now at) }
    ensures exact { Matches (λ x. x) result (number_at E.short w32 bytes.now at) }
    ensures within { IfOk result (λ x. x.1 ≤ length bytes.now) }
{
    let (field, next) = read_field::<E>(bytes, at, 4)?;
    let number = u32::from_be_bytes([field[0], field[1], field[2], field[3]]);
    Ok((number, next))
}

/// The number whose eight bytes stand at the place, the highest one first, and the place behind them.
#[tactic(auto, unfolding(crate::specs::inner::Fields::number_at))]
pub fn read_u64<E: FieldFault>(bytes: &[u8], at: usize) -> Result<(u64, usize), E>
    requires { at ≤ length bytes.now }
    ensures stands { IfOk result (NumberStands w64 bytes.now at) }
    ensures cut { IfErr result (IsCut E.short 8 bytes.now at) }
    ensures exact { Matches (λ x. x) result (number_at E.short w64 bytes.now at) }
    ensures within { IfOk result (λ x. x.1 ≤ length bytes.now) }
{
    let (field, next) = read_field::<E>(bytes, at, 8)?;
    let number = u64::from_be_bytes([
        field[0], field[1], field[2], field[3], field[4], field[5], field[6], field[7],
    ]);
    Ok((number, next))
}
