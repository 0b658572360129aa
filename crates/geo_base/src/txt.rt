ghost use Rattle.std.specs.Prelude.{◌≡◌, ◌<◌, ◌↔◌, length, IfOk, IsErrOf, nat_eq};
ghost use Rattle.std.specs.Cmp.Lexicographic.{pointwise, slice_cmp};
ghost use Rattle.std.specs.Cmp.Rules.{comparing, hashing};
ghost use Rattle.std.specs.Cmp.{partial_order_from_own_ties};
ghost use Rattle.std.specs.Ordering.{nat_cmp, as_partial_cmp};
ghost use Rattle.std.specs.Hash as fed;
ghost use Rattle.std.proofs.Common.{rules};
ghost use Rattle.geo_base.specs.Cells.{IsText};
ghost use Rattle.geo_base.specs.declared.txt.TxtFault.TheVariants as fault;

use crate::duplicate::{Duplicate, NoMemory};
use crate::limits::MAX_TEXT_BYTES;
use std::alloc::{AllocError, Global};
use std::cmp::Ordering;
use std::hash::{Hash, Hasher};
use std::marker::Model;

/// A text of at most [`MAX_TEXT_BYTES`] bytes, ordered by its bytes.
#[derive(Debug, Drop)]
pub struct Txt {
    text: String,
}

impl Model for Txt {
    ghost use Rattle.std.specs.Prelude.{ℕ, List, length, ◌≤◌, string_bytes};
    ghost use Rattle.std.specs.Coded.{coded_list, coded_ℕ};
    ghost use Rattle.geo_base.specs.declared.limits.TheConstants.{MAX_TEXT_BYTES};

    ghost Value = { List ℕ };

    ghost coded = { coded_list coded_ℕ };

    ghost view = { λ t. string_bytes t.text };

    ghost invariant = { λ t. length (string_bytes t.text) ≤ MAX_TEXT_BYTES };
}

/// Why a text was not made.
#[derive(Clone, Copy, Debug, PartialEq, Eq)]
pub enum TxtFault {
    /// It has more than [`MAX_TEXT_BYTES`] bytes.
    TooLong,
    /// There was no memory for a copy of it. It says nothing of the text but that it is short enough.
    NoMemory,
}

impl From<AllocError> for TxtFault {
    ghost from_gives = { λ _ e. e ≡ fault.NoMemory };

    fn from(_e: AllocError) -> TxtFault {
        TxtFault::NoMemory
    }
}

impl Txt {
    /// A copy of the text. Takes a step for each byte, and none where there are too many.
    pub fn new(alloc: Global, text: &str) -> Result<Txt, TxtFault>
        ensures value { IfOk result (λ t. t ≡ text.now) }
        ensures too_long { IsErrOf result TxtFault.TooLong ↔ (MAX_TEXT_BYTES < length text.now) }
    {
        if text.len() > MAX_TEXT_BYTES {
            return Err(TxtFault::TooLong);
        }
        let text = String::from_str(alloc, text)?;
        Ok(Txt { text })
    }

    /// The text, of at most [`MAX_TEXT_BYTES`] bytes.
    pub fn text(&self) -> &str
        ensures value { result.now ≡ self.now }
        ensures text { IsText self.now }
    {
        self.text.as_str()
    }
}

impl Duplicate for Txt {
    fn copy(&self, alloc: Global) -> Result<Txt, NoMemory> {
        let text = String::from_str(alloc, self.text.as_str())?;
        Ok(Txt { text })
    }
}

impl PartialEq for Txt {
    ghost eq = { pointwise nat_eq };

    ghost laws = { Prim.search (comparing, rules) };

    fn eq(&self, other: &Txt) -> bool {
        self.text.as_str() == other.text.as_str()
    }
}

impl Eq for Txt {
    ghost laws = { Prim.search (comparing, rules) };
}

impl PartialOrd for Txt {
    ghost partial_cmp = { as_partial_cmp (slice_cmp nat_cmp) };

    ghost laws = { partial_order_from_own_ties (Prim.search (comparing, rules)) (Prim.search (comparing, rules)) };

    fn partial_cmp(&self, other: &Txt) -> Option<Ordering> {
        Some(self.cmp(other))
    }
}

impl Ord for Txt {
    ghost cmp = { slice_cmp nat_cmp };

    ghost total = { Prim.search (comparing, rules) };

    ghost matches_partial_cmp = { Prim.search (comparing, rules) };

    ghost matches_eq = { Prim.search (comparing, rules) };

    fn cmp(&self, other: &Txt) -> Ordering {
        self.text.as_str().cmp(other.text.as_str())
    }
}

impl Hash for Txt {
    ghost hash_input = { fed.str };

    ghost respects_eq = { Prim.search (hashing, rules) };

    fn hash<H: Hasher>(&self, state: &mut H) {
        self.text.as_str().hash(state);
    }
}
