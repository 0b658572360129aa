//! The call that the program makes with its words.
ghost use Rattle.std.specs.Prelude.{◌≡◌, ◌⊎◌, ℕ, List, Some};
ghost use Rattle.geo_base.specs.declared.limits.TheConstants.{LAST_EPOCH};
ghost use Rattle.geogauss.specs.Command.{IsPlay};
ghost use Rattle.geogauss.specs.Playing.{IsNoScript};
ghost use Rattle.geogauss.specs.Meaning.{IsPlayOf};
ghost use Rattle.geogauss.specs.Status.{IsScriptFault};

use crate::command::{Command, Words, read_words};
use crate::playing::play_call;
use crate::status::Status;
use geo_io::{Keepers, Sink, Source};
use std::alloc::Global;
use std::sync::Wait;
use std::thread::Threads;

/// Does what the words ask for, and hands the keepers back. The one word `play` plays the script that the
/// source gives; other words leave source and sink as they were.
pub fn top<R: Threads + Wait, S: Source, K: Sink, L: Keepers>(
    rt: &R,
    alloc: Global,
    words: &Words,
    src: &mut S,
    out: &mut K,
    logs: L,
) -> (Status, L)
    ensures play { IsPlay words.now → IsPlayOf LAST_EPOCH
        (record { left = S.left src.old; read_faults = S.faults src.old; written = K.written out.old; write_faults = K.faults out.old; logs = L.lists logs })
        (record { left = S.left src.new; read_faults = S.faults src.new; written = K.written out.new; write_faults = K.faults out.new; logs = L.lists result.1 })
        result.0 }
    ensures usage { ¬ (IsPlay words.now) → result.0 ≡ Status.Usage }
    ensures refused { result.0 ≡ Status.Usage → (src.new ≡ src.old) × (out.new ≡ out.old) }
    ensures untouched { (result.0 ≡ Status.ReadFault) ⊎ IsScriptFault result.0 → out.new ≡ out.old }
    ensures nothing { (input : List ℕ) → S.left src.old ≡ Some input → IsNoScript input → out.new ≡ out.old }
    ensures logs { result.1 ≡ logs }
{
    let _ = rt;
    let mut logs = logs;
    match read_words(alloc, words) {
        Ok(Command::Play(opts)) => {
            let status = play_call(alloc, &opts, src, out, &mut logs);
            (status, logs)
        }
        Err(fault) => (fault.status(), logs),
    }
}
