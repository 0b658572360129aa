//! The program between the reader and the writer that it is given: all of it but the handing over.
ghost use Rattle.std.specs.Prelude.{◌≡◌, ◌≢◌, ◌⊎◌, [], Some, IsNone, IfOk, IfErr, IfSome, drop, map, string_bytes};
ghost use Rattle.std.specs.IoError.{error_kind};
ghost use Rattle.std.specs.Io.KnownBytes.{Keeps};
ghost use Rattle.std.specs.Process.{exit_status};
ghost use Rattle.std.specs.Vec.Iter.{into_iter_items};
ghost use Rattle.geo_io.specs.Edge.{held_back};
ghost use Rattle.geo_io.specs.Memory.{eight_lists};
ghost use Rattle.geogauss.specs.Command.{IsPlay, words_behind_name};
ghost use Rattle.geogauss.specs.Meaning.{IsPlayOf};
ghost use Rattle.geogauss.specs.Status.{number_of};
ghost use Rattle.geogauss.specs.inner.Flushing.{unflushed_status};

use crate::command::{Words, words_of};
use crate::status::Status;
use crate::top::top;
use geo_base::limits::LAST_EPOCH;
use geo_io::{CleanKeepers, Failed, Sink, Source, StdSink, StdSource};
use std::alloc::Global;
use std::env::Args;
use std::io::{self, BufWriter, ErrorKind, Read, Write};
use std::process::ExitCode;
use std::sync::Wait;
use std::thread::Threads;

/// How the program ended, and what it left.
#[derive(Drop)]
pub struct Ended<R, W: Write + Drop> {
    /// How the call ended.
    pub status: Status,
    /// What the process ends with.
    pub code: ExitCode,
    /// The reader, as a source.
    pub source: StdSource<R>,
    /// The writer, as a sink. None where there was no memory for its buffer, and then it was given nothing.
    pub sink: Option<StdSink<BufWriter<W>>>,
}

/// Does what the arguments of the process ask for, between this reader and this writer. What is held back for
/// the writer is handed on at the end.
pub fn carry_out<T: Threads + Wait, R: Read + Drop, W: Write + Drop>(
    rt: &T,
    alloc: Global,
    args: io::Result<Args>,
    reader: R,
    writer: W,
) -> Ended<R, W>
    ensures play { IfOk args (λ all. IsPlay (words_behind_name (into_iter_items all)) → IfSome result.sink (λ sink. IsPlayOf LAST_EPOCH
        (record { left = R.remaining reader; read_faults = 0; written = W.contents writer; write_faults = 0; logs = Some (eight_lists []) })
        (record {
          left = ⟦<StdSource<R> as Source>⟧.left result.source;
          read_faults = ⟦<StdSource<R> as Source>⟧.faults result.source;
          written = ⟦<StdSink<BufWriter<W>> as Sink>⟧.written sink;
          write_faults = ⟦<StdSink<BufWriter<W>> as Sink>⟧.faults sink;
          logs = Some (eight_lists []);
        })
        result.status)) }
    ensures flushed { result.status ≡ Status.Done → IfSome result.sink (λ sink. held_back sink ≡ []) }
    ensures other { IfOk args (λ all. ¬ (IsPlay (words_behind_name (into_iter_items all))) → (result.status ≡ Status.Usage) ⊎ (result.status ≡ Status.NoMemory)) }
    ensures no_text { IfErr args (λ e. error_kind e ≡ ErrorKind.InvalidData → (result.status ≡ Status.Usage) ⊎ (result.status ≡ Status.NoMemory)) }
    ensures no_args { IfErr args (λ e. error_kind e ≢ ErrorKind.InvalidData → result.status ≡ Status.NoMemory) }
    ensures refused { result.status ≡ Status.Usage → (⟦<StdSource<R> as Source>⟧.left result.source ≡ R.remaining reader)
        × IfSome result.sink (λ sink. Keeps (W.contents writer) (⟦<StdSink<BufWriter<W>> as Sink>⟧.written sink)) }
    ensures unbuffered { IsNone result.sink → (result.status ≡ Status.NoMemory) × (⟦<StdSource<R> as Source>⟧.left result.source ≡ R.remaining reader) }
    ensures code { exit_status result.code ≡ number_of result.status }
{
    let mut source = StdSource::new(reader);
    let Ok(buffer) = BufWriter::new(alloc, writer) else {
        return ending(Status::NoMemory, source, None);
    };
    let mut sink = StdSink::new(buffer);
    let words = match words_of(alloc, args) {
        Ok(words) => words,
        Err(fault) => return ending(fault.status(), source, Some(sink)),
    };
    let status = serve(rt, alloc, &words, &mut source, &mut sink);
    ending(status, source, Some(sink))
}

/// The end with this status, and the number that goes with it.
fn ending<R, W: Write + Drop>(
    status: Status,
    source: StdSource<R>,
    sink: Option<StdSink<BufWriter<W>>>,
) -> Ended<R, W>
    ensures status { result.status ≡ status }
    ensures source { result.source ≡ source }
    ensures sink { result.sink ≡ sink }
    ensures code { exit_status result.code ≡ number_of status }
{
    Ended {
        status,
        code: ExitCode::from(status.number()),
        source,
        sink,
    }
}

/// Does what the words ask for, and then hands on what is held back.
fn serve<T: Threads + Wait, R: Read, W: Write + Drop>(
    rt: &T,
    alloc: Global,
    words: &Words,
    source: &mut StdSource<R>,
    sink: &mut StdSink<BufWriter<W>>,
) -> Status
    ensures play { IsPlay words.now → IsPlayOf LAST_EPOCH
        (record {
          left = ⟦<StdSource<R> as Source>⟧.left source.old;
          read_faults = ⟦<StdSource<R> as Source>⟧.faults source.old;
          written = ⟦<StdSink<BufWriter<W>> as Sink>⟧.written sink.old;
          write_faults = ⟦<StdSink<BufWriter<W>> as Sink>⟧.faults sink.old;
          logs = Some (eight_lists []);
        })
        (record {
          left = ⟦<StdSource<R> as Source>⟧.left source.new;
          read_faults = ⟦<StdSource<R> as Source>⟧.faults source.new;
          written = ⟦<StdSink<BufWriter<W>> as Sink>⟧.written sink.new;
          write_faults = ⟦<StdSink<BufWriter<W>> as Sink>⟧.faults sink.new;
          logs = Some (eight_lists []);
        })
        result }
    ensures flushed { result ≡ Status.Done → held_back sink.new ≡ [] }
    ensures usage { ¬ (IsPlay words.now) → result ≡ Status.Usage }
    ensures refused { result ≡ Status.Usage → (source.new ≡ source.old)
        × Keeps (⟦<StdSink<BufWriter<W>> as Sink>⟧.written sink.old) (⟦<StdSink<BufWriter<W>> as Sink>⟧.written sink.new) }
{
    let logs = CleanKeepers::new(alloc, Vec::new(alloc));
    let (status, _) = top(rt, alloc, words, source, sink, logs);
    match sink.flush() {
        Ok(()) => status,
        Err(Failed) => unflushed(status),
    }
}

/// How a call ends whose last flush failed: that is a write fault, where all else was done.
fn unflushed(status: Status) -> Status
    ensures { result ≡ unflushed_status status }
{
    match status {
        Status::Done => Status::WriteFault,
        _ => status,
    }
}
