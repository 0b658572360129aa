//! Why statements are refused, with the number of each refusal.
ghost use Rattle.std.specs.Prelude.{◌≡◌};
ghost use Rattle.geo_report.specs.Refusals.{number_of, word_of};

use geo_base::{CandId, Epoch, RowId, Txt};

/// Why a statement is refused. A text is a name as it is printed, and a number in a text's place is that of a byte of
/// the statement, from 0.
#[derive(Drop)]
pub enum Refusal {
    /// No token begins at the place.
    BadText(u32),
    /// No statement goes on so at the place.
    BadSyntax(u32),
    /// An expression has too many operators or parentheses at the place.
    TooDeep(u32),
    NoTable(Txt),
    NoColumn(Txt),
    Ambiguous(Txt),
    TypeClash,
    WrongCount,
    KeyColumn(Txt),
    NotGrouped(Txt),
    NotLockable,
    /// The row is there already.
    Duplicate(RowId),
    NullNotAllowed(Txt),
    Overflow,
    DivideByZero,
    TextTooLong(Txt),
    ResultTooLong,
    NotInTransaction,
    AlreadyIn,
    ReadOnly,
    /// The epoch that is to be read is below this horizon.
    TooOldHorizon(Epoch),
    /// The transaction started too long before the open epoch.
    TooOldStart { start: Epoch, open_epoch: Epoch },
    /// The epoch that is to be read is above this one, the last that is published.
    NotPublished(Epoch),
    /// The session's region has crashed since the session began.
    Gone,
    /// The session waits for the verdict on the candidate with this ticket.
    Waiting(CandId),
    BatchFull,
    TooManyRows,
    TooLarge,
    Down,
    /// Statements of this form are not run yet.
    NotBuilt,
}

impl Refusal {
    /// The number of the refusal.
    pub fn number(&self) -> u8
        ensures { result ≡ number_of self.now }
    {
        match self {
            Refusal::BadText(_) => 10,
            Refusal::BadSyntax(_) => 11,
            Refusal::TooDeep(_) => 12,
            Refusal::NoTable(_) => 20,
            Refusal::NoColumn(_) => 21,
            Refusal::Ambiguous(_) => 22,
            Refusal::TypeClash => 23,
            Refusal::WrongCount => 24,
            Refusal::KeyColumn(_) => 25,
            Refusal::NotGrouped(_) => 26,
            Refusal::NotLockable => 27,
            Refusal::Duplicate(_) => 30,
            Refusal::NullNotAllowed(_) => 31,
            Refusal::Overflow => 32,
            Refusal::DivideByZero => 33,
            Refusal::TextTooLong(_) => 34,
            Refusal::ResultTooLong => 37,
            Refusal::NotInTransaction => 40,
            Refusal::AlreadyIn => 41,
            Refusal::ReadOnly => 42,
            Refusal::TooOldHorizon(_) => 43,
            Refusal::TooOldStart { .. } => 43,
            Refusal::NotPublished(_) => 44,
            Refusal::Gone => 45,
            Refusal::Waiting(_) => 46,
            Refusal::BatchFull => 47,
            Refusal::TooManyRows => 48,
            Refusal::TooLarge => 49,
            Refusal::Down => 52,
            Refusal::NotBuilt => 90,
        }
    }

    /// The word of the refusal.
    pub fn word(&self) -> &'static str
        ensures { result.now ≡ word_of self.now }
    {
        match self {
            Refusal::BadText(_) => "BadText",
            Refusal::BadSyntax(_) => "BadSyntax",
            Refusal::TooDeep(_) => "TooDeep",
            Refusal::NoTable(_) => "NoTable",
            Refusal::NoColumn(_) => "NoColumn",
            Refusal::Ambiguous(_) => "Ambiguous",
            Refusal::TypeClash => "TypeClash",
            Refusal::WrongCount => "WrongCount",
            Refusal::KeyColumn(_) => "KeyColumn",
            Refusal::NotGrouped(_) => "NotGrouped",
            Refusal::NotLockable => "NotLockable",
            Refusal::Duplicate(_) => "Duplicate",
            Refusal::NullNotAllowed(_) => "NullNotAllowed",
            Refusal::Overflow => "Overflow",
            Refusal::DivideByZero => "DivideByZero",
            Refusal::TextTooLong(_) => "TextTooLong",
            Refusal::ResultTooLong => "ResultTooLong",
            Refusal::NotInTransaction => "NotInTransaction",
            Refusal::AlreadyIn => "AlreadyIn",
            Refusal::ReadOnly => "ReadOnly",
            Refusal::TooOldHorizon(_) => "TooOld",
            Refusal::TooOldStart { .. } => "TooOld",
            Refusal::NotPublished(_) => "NotPublished",
            Refusal::Gone => "Gone",
            Refusal::Waiting(_) => "Waiting",
            Refusal::BatchFull => "BatchFull",
            Refusal::TooManyRows => "TooManyRows",
            Refusal::TooLarge => "TooLarge",
            Refusal::Down => "Down",
            Refusal::NotBuilt => "NotBuilt",
        }
    }
}
