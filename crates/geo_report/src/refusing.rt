//! Refusals, put at the end of a text, which is to be dropped after an error.
ghost use Rattle.std.specs.Prelude.{◌≡◌, ◌++◌, codes, OnOk, string_bytes};
ghost use Rattle.geo_report.specs.Refusals.{named_by, refusal_text, seal_text};

use crate::notice::SealWhy;
use crate::pieces::{print_id, print_number, print_row_name};
use crate::refusal::Refusal;
use geo_base::{NoMemory, Txt};
use geo_schema::Schema;

/// A name behind a space.
fn print_name(out: &mut String, name: &Txt) -> Result<(), NoMemory>
    ensures { OnOk result (string_bytes out.new ≡ string_bytes out.old ++ (codes " " ++ name.now)) }
{
    out.push_str(" ")?;
    Ok(out.push_str(name.text())?)
}

/// What a refusal names.
fn print_named(out: &mut String, schema: &Schema, why: &Refusal) -> Result<(), NoMemory>
    ensures { OnOk result (string_bytes out.new ≡ string_bytes out.old ++ named_by schema.now why.now) }
{
    match why {
        Refusal::BadText(at) | Refusal::BadSyntax(at) | Refusal::TooDeep(at) => {
            print_number(out, " ", u64::from(*at))
        }
        Refusal::NoTable(name)
        | Refusal::NoColumn(name)
        | Refusal::Ambiguous(name)
        | Refusal::KeyColumn(name)
        | Refusal::NotGrouped(name)
        | Refusal::NullNotAllowed(name)
        | Refusal::TextTooLong(name) => print_name(out, name),
        Refusal::Duplicate(row) => print_row_name(out, " ", schema, row),
        Refusal::TooOldHorizon(horizon) => print_number(out, " horizon ", u64::from(*horizon)),
        Refusal::TooOldStart { start, open_epoch } => {
            print_number(out, " start ", u64::from(*start))?;
            print_number(out, " open ", u64::from(*open_epoch))
        }
        Refusal::NotPublished(published) => {
            print_number(out, " published ", u64::from(*published))
        }
        Refusal::Waiting(id) => print_id(out, " ", *id),
        Refusal::TypeClash
        | Refusal::WrongCount
        | Refusal::NotLockable
        | Refusal::Overflow
        | Refusal::DivideByZero
        | Refusal::ResultTooLong
        | Refusal::NotInTransaction
        | Refusal::AlreadyIn
        | Refusal::ReadOnly
        | Refusal::Gone
        | Refusal::BatchFull
        | Refusal::TooManyRows
        | Refusal::TooLarge
        | Refusal::Down
        | Refusal::NotBuilt => Ok(()),
    }
}

/// Why a statement is refused.
pub fn print_refusal(out: &mut String, schema: &Schema, why: &Refusal) -> Result<(), NoMemory>
    ensures { OnOk result (string_bytes out.new ≡ string_bytes out.old ++ (codes "refused " ++ refusal_text schema.now why.now)) }
{
    print_number(out, "refused ", u64::from(why.number()))?;
    out.push_str(" ")?;
    out.push_str(why.word())?;
    print_named(out, schema, why)
}

/// Why a seal is refused.
pub fn print_seal_refusal(out: &mut String, why: SealWhy) -> Result<(), NoMemory>
    ensures { OnOk result (string_bytes out.new ≡ string_bytes out.old ++ (codes " refused " ++ seal_text why)) }
{
    print_number(out, " refused ", u64::from(why.number()))?;
    out.push_str(" ")?;
    Ok(out.push_str(why.word())?)
}
