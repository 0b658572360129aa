// The edge of the program: any reader and writer of std. What they give and take is told where std knows it, as
// for bytes in memory; of standard input and output nothing is known.
ghost use Rattle.std.specs.Prelude.{◌≡◌, [], OnOk};
ghost use Rattle.std.specs.Io.KnownBytes.{Keeps};
ghost use Rattle.geo_io.specs.Causes.{HasCause};
ghost use Rattle.geo_io.specs.Edge.{held_back};

use crate::{Failed, IoFault, Sink, Source};
use std::io::{BufWriter, ErrorKind, Read, Write};

/// Gives what a reader of std gives.
#[derive(Drop)]
pub struct StdSource<R> {
    reader: R,
    faults: u64,
}

impl<R: Read> StdSource<R> {
    /// Gives what this reader gives, and has not failed yet.
    pub fn new(reader: R) -> Self
        ensures left { ⟦<StdSource<R> as Source>⟧.left result ≡ R.remaining reader }
        ensures faults { ⟦<StdSource<R> as Source>⟧.faults result ≡ 0 }
    {
        StdSource { reader, faults: 0 }
    }
}

impl<R: Read> Source for StdSource<R> {
    ghost left = { λ it. R.remaining it.reader };

    ghost faults = { λ it. it.faults };

    // A read that a signal interrupts gave nothing, and is made again.
    fn read(&mut self, buf: &mut [u8]) -> Result<usize, Failed> {
        for _ in 0..u64::MAX {
            match self.reader.read(buf) {
                Ok(given) => return Ok(given),
                Err(error) if error.kind() == ErrorKind::Interrupted => {}
                Err(_) => break,
            }
        }
        self.faults = self.faults.saturating_add(1);
        Err(Failed)
    }
}

/// Hands to a writer of std what it is given.
#[derive(Drop)]
pub struct StdSink<W> {
    writer: W,
    faults: u64,
}

impl<W: Write> StdSink<W> {
    /// Hands to this writer what it is given, and has not failed yet.
    pub fn new(writer: W) -> Self
        ensures written { ⟦<StdSink<W> as Sink>⟧.written result ≡ W.contents writer }
        ensures faults { ⟦<StdSink<W> as Sink>⟧.faults result ≡ 0 }
    {
        StdSink { writer, faults: 0 }
    }
}

impl<W: Write + Drop> StdSink<BufWriter<W>> {
    /// Hands on what the buffer holds back. A closed output is seen here at the latest.
    pub fn flush(&mut self) -> Result<(), Failed>
        ensures whole { OnOk result (held_back self.new ≡ []) }
        ensures kept { Keeps (⟦<StdSink<BufWriter<W>> as Sink>⟧.written self.old) (⟦<StdSink<BufWriter<W>> as Sink>⟧.written self.new) }
        ensures cause { HasCause (⟦<StdSink<BufWriter<W>> as Sink>⟧.faults self.old) (⟦<StdSink<BufWriter<W>> as Sink>⟧.faults self.new) result }
    {
        match self.writer.flush() {
            Ok(()) => Ok(()),
            Err(_) => {
                self.faults = self.faults.saturating_add(1);
                Err(Failed)
            }
        }
    }
}

impl<W: Write> Sink for StdSink<W> {
    ghost written = { λ it. W.contents it.writer };

    ghost faults = { λ it. it.faults };

    // A writer that takes nothing of something has failed.
    fn write(&mut self, piece: &[u8]) -> Result<usize, IoFault> {
        for _ in 0..u64::MAX {
            match self.writer.write(piece) {
                Ok(0) if !piece.is_empty() => break,
                Ok(taken) => return Ok(taken),
                Err(error) if error.kind() == ErrorKind::Interrupted => {}
                Err(_) => break,
            }
        }
        self.faults = self.faults.saturating_add(1);
        Err(IoFault::Failed)
    }
}
