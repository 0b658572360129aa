//! Why a log can't be written or read.
ghost use Rattle.std.specs.Prelude.{◌≡◌};
ghost use Rattle.own_log.specs.inner.Faults.{append_fault, load_fault};
ghost use Rattle.own_log.specs.declared.fault.EntryFault.TheVariants as entry_fault;
ghost use Rattle.own_log.specs.declared.fault.LoadFault.TheVariants as load;
ghost use Rattle.own_log.specs.declared.fault.LogAppendFault.TheVariants as log;

use geo_base::{Epoch, NoMemory, RegionNo};
use geo_io::{Failed, IoFault};
use set_codec::CodecFault;
use std::alloc::AllocFailed;

/// Why an entry wasn't appended, or not read.
#[derive(Clone, Copy, Debug, PartialEq, Eq)]
pub enum LogAppendFault {
    /// The keepers failed, and their count of faults rose. What was to be appended may have been kept.
    LogFault,
    /// There was no memory.
    NoMemory,
}

/// What is wrong with an entry of a log.
#[derive(Clone, Copy, Debug, PartialEq, Eq)]
pub enum EntryFault {
    /// Its bytes spell no batch.
    Codec(CodecFault),
    /// It is a batch of this other region.
    Region(RegionNo),
    /// It is a batch of the region, but of this epoch, which isn't one greater than its place.
    Epoch(Epoch),
}

/// Why a log wasn't read.
#[derive(Clone, Copy, Debug, PartialEq, Eq)]
pub enum LoadFault {
    /// The keepers failed, and their count of faults rose.
    LogFault,
    /// An entry isn't the batch that belongs to its place.
    BadLog {
        /// The place of the first such entry, from 0.
        entry: u64,
        /// What is wrong with it. Never want of memory.
        fault: EntryFault,
    },
    /// There was no memory for the entries or the batches.
    NoMemory,
}

impl From<NoMemory> for LogAppendFault {
    ghost from_gives = { λ _ e. e ≡ log.NoMemory };

    fn from(_e: NoMemory) -> LogAppendFault {
        LogAppendFault::NoMemory
    }
}

impl From<IoFault> for LogAppendFault {
    ghost from_gives = { λ io e. e ≡ append_fault io };

    fn from(io: IoFault) -> LogAppendFault {
        match io {
            IoFault::Failed => LogAppendFault::LogFault,
            IoFault::NoMemory => LogAppendFault::NoMemory,
        }
    }
}

impl From<CodecFault> for EntryFault {
    ghost from_gives = { λ codec e. e ≡ entry_fault.Codec codec };

    fn from(codec: CodecFault) -> EntryFault {
        EntryFault::Codec(codec)
    }
}

impl From<Failed> for LoadFault {
    ghost from_gives = { λ _ e. e ≡ load.LogFault };

    fn from(_e: Failed) -> LoadFault {
        LoadFault::LogFault
    }
}

impl From<IoFault> for LoadFault {
    ghost from_gives = { λ io e. e ≡ load_fault io };

    fn from(io: IoFault) -> LoadFault {
        match io {
            IoFault::Failed => LoadFault::LogFault,
            IoFault::NoMemory => LoadFault::NoMemory,
        }
    }
}

impl<T: Drop> From<AllocFailed<T>> for LoadFault {
    ghost from_gives = { λ _ e. e ≡ load.NoMemory };

    fn from(_e: AllocFailed<T>) -> LoadFault {
        LoadFault::NoMemory
    }
}
