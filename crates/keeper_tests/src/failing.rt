//! Files of the host of which some calls fail, and what of one file stands on the disk.

use std::alloc::Allocator;
use std::cell::Cell;
use std::fs::{File, Metadata, OpenFile, OpenOptions};
use std::io;
use std::io::{ErrorKind, Read, Seek, SeekFrom, Write};
use std::rt::Files;

// Whether a file stands on the disk as it is read.
#[derive(Clone, Copy, PartialEq, Eq)]
enum OnDisk {
    // another program left it so, and may not have synced it
    Left,
    // it was written or cut since the last sync
    Changed,
    // a sync failed after that: what was written may be lost, also where the next sync goes well
    Lost,
    // all of it stands
    Synced,
}

/// Counts the calls on the files, of which one alone has entries, and says which of them fail.
#[derive(Drop)]
pub struct Trouble {
    // how many calls are left up to the last that fails, and how many of these fail
    left: Cell<u64>,
    fails: u64,
    kind: ErrorKind,
    on_disk: Cell<OnDisk>,
}

impl Trouble {
    /// So many calls from the one of this number on, from 0, fail by an error of this kind.
    pub fn new(call: u64, fails: u64, kind: ErrorKind) -> Self {
        Trouble {
            left: Cell::new(call.saturating_add(fails)),
            fails,
            kind,
            on_disk: Cell::new(OnDisk::Left),
        }
    }

    /// How many calls have failed.
    pub fn failed(&self) -> u64 {
        self.fails.saturating_sub(self.left.get())
    }

    /// What was written and cut stands on the disk.
    pub fn is_synced(&self) -> bool {
        self.on_disk.get() == OnDisk::Synced
    }

    // Something was written: it can't be more certain than what was lost.
    fn write(&self) {
        if self.on_disk.get() != OnDisk::Lost {
            self.on_disk.set(OnDisk::Changed);
        }
    }

    // The file was cut, and what was lost with it.
    fn cut(&self) {
        self.on_disk.set(OnDisk::Changed);
    }

    // A sync that went well or didn't.
    fn sync(&self, done: bool) {
        match self.on_disk.get() {
            OnDisk::Changed if !done => self.on_disk.set(OnDisk::Lost),
            OnDisk::Changed | OnDisk::Left if done => self.on_disk.set(OnDisk::Synced),
            _ => {}
        }
    }

    // Counts a call that can't be interrupted, and fails where it is to.
    fn meet(&self) -> io::Result<()> {
        if self.kind == ErrorKind::Interrupted {
            return Ok(());
        }
        self.meet_stream()
    }

    // Counts a read or a write, and fails where it is to.
    fn meet_stream(&self) -> io::Result<()> {
        let left = self.left.get();
        self.left.set(left.saturating_sub(1));
        if 0 < left && left <= self.fails {
            return Err(io::Error::from(self.kind));
        }
        Ok(())
    }
}

/// The host's files, in trouble.
#[derive(Drop)]
pub struct FailingFiles<'a> {
    pub rt: &'a HostRuntime,
    pub trouble: &'a Trouble,
}

/// An open file, in the same trouble.
#[derive(Drop)]
pub struct FailingFile<'a> {
    file: File,
    trouble: &'a Trouble,
}

impl<'a> Files for FailingFiles<'a> {
    type File = FailingFile<'a>;

    type Dir = <HostRuntime as Files>::Dir;

    fn open_file(&self, how: &OpenOptions, path: &str) -> io::Result<FailingFile<'a>> {
        self.trouble.meet()?;
        Ok(FailingFile {
            file: self.rt.open_file(how, path)?,
            trouble: self.trouble,
        })
    }

    fn open_dir(&self, path: &str) -> io::Result<<HostRuntime as Files>::Dir> {
        self.rt.open_dir(path)
    }

    fn metadata(&self, path: &str) -> io::Result<Metadata> {
        self.rt.metadata(path)
    }

    fn symlink_metadata(&self, path: &str) -> io::Result<Metadata> {
        self.rt.symlink_metadata(path)
    }

    fn copy(&self, from: &str, to: &str) -> io::Result<u64> {
        self.rt.copy(from, to)
    }

    fn rename(&self, from: &str, to: &str) -> io::Result<()> {
        self.rt.rename(from, to)
    }

    fn remove_file(&self, path: &str) -> io::Result<()> {
        self.rt.remove_file(path)
    }

    fn create_dir(&self, path: &str) -> io::Result<()> {
        self.rt.create_dir(path)
    }

    fn remove_dir(&self, path: &str) -> io::Result<()> {
        self.rt.remove_dir(path)
    }

    fn remove_dir_all<B: Allocator>(&self, alloc: B, path: &str) -> io::Result<()> {
        self.rt.remove_dir_all(alloc, path)
    }
}

impl Read for FailingFile<'_> {
    fn read(&mut self, buf: &mut [u8]) -> io::Result<usize> {
        self.trouble.meet_stream()?;
        self.file.read(buf)
    }
}

impl Write for FailingFile<'_> {
    // A write that fails, but isn't interrupted, has written a half.
    fn write(&mut self, buf: &[u8]) -> io::Result<usize> {
        if let Err(error) = self.trouble.meet_stream() {
            if error.kind() != ErrorKind::Interrupted {
                self.trouble.write();
                let _ = self.file.write(&buf[..buf.len() / 2]);
            }
            return Err(error);
        }
        self.trouble.write();
        self.file.write(buf)
    }

    fn flush(&mut self) -> io::Result<()> {
        self.file.flush()
    }
}

impl Seek for FailingFile<'_> {
    fn seek(&mut self, to: SeekFrom) -> io::Result<u64> {
        self.trouble.meet()?;
        self.file.seek(to)
    }
}

impl OpenFile for FailingFile<'_> {
    fn metadata(&self) -> io::Result<Metadata> {
        self.trouble.meet()?;
        self.file.metadata()
    }

    fn set_len(&self, size: u64) -> io::Result<()> {
        self.trouble.meet()?;
        self.trouble.cut();
        self.file.set_len(size)
    }

    // A sync that fails comes after all was written.
    fn sync_all(&self) -> io::Result<()> {
        let met = self.trouble.meet();
        self.trouble.sync(met.is_ok());
        met?;
        self.file.sync_all()
    }

    fn sync_data(&self) -> io::Result<()> {
        self.trouble.meet()?;
        self.file.sync_data()
    }
}
