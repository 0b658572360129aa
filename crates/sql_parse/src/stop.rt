//! Why reading stops, in terms of the tokens that are left.

ghost use Rattle.std.specs.Prelude.{◌≡◌};
ghost use Rattle.sql_parse.specs.declared.stop.Stop.TheVariants as stop;

use geo_base::NoMemory;
use std::alloc::{AllocError, AllocFailed};

/// Why reading stops. A number counts the tokens from the one at fault to the end, so it is 0 at the end.
#[derive(Clone, Copy, Debug, PartialEq, Eq)]
pub(crate) enum Stop {
    /// No statement goes on with this token.
    Stuck(usize),
    /// This token is one operator or one opening parenthesis too many.
    Deep(usize),
    NoMemory,
}

impl From<NoMemory> for Stop {
    ghost from_gives = { λ _ e. e ≡ stop.NoMemory };

    fn from(_e: NoMemory) -> Stop {
        Stop::NoMemory
    }
}

impl From<AllocError> for Stop {
    ghost from_gives = { λ _ e. e ≡ stop.NoMemory };

    fn from(_e: AllocError) -> Stop {
        Stop::NoMemory
    }
}

impl<T: Drop> From<AllocFailed<T>> for Stop {
    ghost from_gives = { λ _ e. e ≡ stop.NoMemory };

    fn from(_e: AllocFailed<T>) -> Stop {
        Stop::NoMemory
    }
}
