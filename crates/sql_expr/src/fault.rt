//! Faults.
ghost use Rattle.std.specs.Prelude.{◌≡◌};
ghost use Rattle.sql_expr.specs.declared.fault.EvalFault.TheVariants as fault;

use geo_base::NoMemory;

/// Why an expression has no value over a row.
#[derive(Clone, Copy, Debug, PartialEq, Eq)]
pub enum EvalFault {
    /// The whole number that an operator gives is no `i64`.
    Overflow,
    /// A number is divided by 0.
    DivideByZero,
    /// There was no memory for the answer. No expression has this fault.
    NoMemory,
}

impl From<NoMemory> for EvalFault {
    ghost from_gives = { λ _ e. e ≡ fault.NoMemory };

    fn from(_e: NoMemory) -> EvalFault {
        EvalFault::NoMemory
    }
}
