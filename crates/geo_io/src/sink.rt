// Where bytes go.
ghost use Rattle.std.specs.Prelude.{◌<◌, ◌≤◌, ℕ, List, Option, length, IfOk};
ghost use Rattle.std.specs.Io.KnownBytes.{WriteAppends};
ghost use Rattle.geo_io.specs.Causes.{HasCauseOf};

use crate::IoFault;

/// Takes bytes, each behind those that it holds.
pub trait Sink {
    /// The bytes that were written, where the sink tells them.
    ghost written: { Self → Option (List ℕ) };

    /// How often the sink has failed.
    ghost faults: { Self → ℕ };

    /// Takes a front of `piece`, and says how many bytes: at least one, where there is one. After an error
    /// the sink holds what it held.
    fn write(&mut self, piece: &[u8]) -> Result<usize, IoFault>
        ensures bound { IfOk result (λ n. n ≤ length piece.now) }
        ensures some { IfOk result (λ n. 0 < length piece.now → 0 < n) }
        ensures bytes { WriteAppends (written self.old) (written self.new) result piece.now }
        ensures cause { HasCauseOf IoFault.Failed (faults self.old) (faults self.new) result };
}
