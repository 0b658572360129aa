// Keepers over the files of a folder: the edge of the program, of which nothing is told.
ghost use Rattle.std.specs.Prelude.{◌≡◌};
ghost use Rattle.geo_io.specs.Causes.{HasCauseOf};

use crate::log_folder::LogFolder;
use crate::{Failed, IoFault, Keepers};
use std::alloc::Global;
use std::rt::Files;

/// Keeps the entries of eight regions in the files of a folder, those of region r in `region-r.log`: of each
/// entry its length, as a big-endian number of four bytes, and its bytes. A file that isn't there is an empty
/// list. An append writes behind the last whole entry and then syncs; it makes the file, and never the folder.
///
/// A file is read when its region is first asked for, and anew after that, or writing an entry, has failed. What is
/// found is synced before it is told. Where the file ends in the middle of an entry, it is cut to the entries that
/// are whole, and synced again. From then on `len` reads nothing, and `read` its entry alone.
///
/// What an append failed to write is cut off before the region is told of again; so the entry isn't kept, unless
/// the program ends first: then the next one tells it where the file has all of it. A sync of what is found can't
/// be trusted after one that failed: where a disk has lost what an earlier program wrote, the call that syncs
/// fails, and a later one may tell an entry that isn't on the disk.
///
/// A fault is: an error of a file, also of the cut; a length above [`MAX_ENTRY_BYTES`](crate::MAX_ENTRY_BYTES) in a
/// file, which is left as it is; an entry number past the list; an entry of more bytes than that; and want of
/// memory in `len`, which has no other answer for it. An error of opening or reading that is want of memory is
/// answered so in `read` and `append`.
#[derive(Drop)]
pub struct FolderKeepers<R> {
    logs: LogFolder<R>,
    faults: u64,
}

impl<R: Files> FolderKeepers<R> {
    /// Keeps the entries in this folder. Nothing is opened yet.
    pub fn new(rt: R, alloc: Global, folder: String) -> Self
        ensures faults { ⟦<FolderKeepers<R> as Keepers>⟧.faults result ≡ 0 }
    {
        FolderKeepers {
            logs: LogFolder::new(rt, alloc, folder),
            faults: 0,
        }
    }
}

impl<R: Files> Keepers for FolderKeepers<R> {
    ghost use Rattle.std.specs.Prelude.{None};
    ghost use Rattle.geo_io.specs.declared.limits.TheConstants.{MAX_WIDTH};

    ghost lists = { λ it. None };

    ghost width = { λ it. MAX_WIDTH };

    ghost faults = { λ it. it.faults };

    fn len(&mut self, region: u8) -> Result<u64, Failed> {
        match self.logs.len(region) {
            Ok(len) => Ok(len),
            Err(_) => {
                self.faults = self.faults.saturating_add(1);
                Err(Failed)
            }
        }
    }

    fn read(&mut self, alloc: Global, region: u8, entry: u64) -> Result<Vec<u8>, IoFault> {
        let read = self.logs.read(alloc, region, entry);
        counted(&mut self.faults, read)
    }

    fn append(&mut self, region: u8, bytes: &[u8]) -> Result<(), IoFault> {
        let appended = self.logs.append(region, bytes);
        counted(&mut self.faults, appended)
    }

    ghost use Rattle.std.proofs.Common.{rules};

    ghost width_in_range = { λ it. Prim.search rules };
}

// The answer, and one more fault where it is one.
fn counted<T>(faults: &mut u64, answer: Result<T, IoFault>) -> Result<T, IoFault>
    ensures same { result ≡ answer }
    ensures cause { HasCauseOf IoFault.Failed faults.old faults.new result }
{
    if matches!(answer, Err(IoFault::Failed)) {
        *faults = faults.saturating_add(1);
    }
    answer
}
