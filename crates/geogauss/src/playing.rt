//! The call that plays a script.
ghost use Rattle.std.specs.Prelude.{◌≡◌, ◌⊎◌, ℕ, List, Some, false};
ghost use Rattle.geogauss.specs.Playing.{IsNoScript};
ghost use Rattle.geogauss.specs.Meaning.{IsPlayOf};
ghost use Rattle.geogauss.specs.Status.{IsScriptFault};

use crate::command::PlayOpts;
use crate::events::play_script;
use crate::reading::take_script;
use crate::status::Status;
use geo_io::{Keepers, Sink, Source};
use geo_world::plays_are_isolated;
use std::alloc::Global;

/// Plays the script that the source gives, and writes the lines of its events. It calls no keepers yet.
pub fn play_call<S: Source, K: Sink, L: Keepers>(
    alloc: Global,
    opts: &PlayOpts,
    src: &mut S,
    out: &mut K,
    logs: &mut L,
) -> Status
    requires { opts.now.summary ≡ false }
    ensures means { IsPlayOf opts.now.last_epoch
        (record { left = S.left src.old; read_faults = S.faults src.old; written = K.written out.old; write_faults = K.faults out.old; logs = L.lists logs.old })
        (record { left = S.left src.new; read_faults = S.faults src.new; written = K.written out.new; write_faults = K.faults out.new; logs = L.lists logs.new })
        result }
    ensures untouched { (result ≡ Status.ReadFault) ⊎ IsScriptFault result → out.new ≡ out.old }
    ensures nothing { (input : List ℕ) → S.left src.old ≡ Some input → IsNoScript input → out.new ≡ out.old }
    ensures logs { logs.new ≡ logs.old }
{
    let _ = logs;
    plays_are_isolated();
    match take_script(alloc, src) {
        Ok(script) => play_script(alloc, &script, opts.last_epoch, out),
        Err(status) => status,
    }
}
