// The files of a folder that keep the entries of the regions, one for each region.
ghost use Rattle.std.specs.Prelude.{◌<◌};

use crate::IoFault;
use crate::entry_file::{Places, cut_back, find_places, read_entry, write_entry};
use crate::limits::{MAX_ENTRY_BYTES, MAX_WIDTH};
use std::alloc::{AllocError, Global};
use std::fs::{OpenFile, OpenOptions};
use std::io::ErrorKind;
use std::path::{Path, PathBuf};
use std::rt::Files;
use std::{fs, io};

/// The files, where the entries lie in those that were read, and where those end that are still to be cut.
#[derive(Drop)]
pub(crate) struct LogFolder<R> {
    rt: R,
    alloc: Global,
    folder: String,
    places: [Option<Places>; MAX_WIDTH],
    cuts: [Option<u64>; MAX_WIDTH],
}

impl<R: Files> LogFolder<R> {
    /// The files of this folder, of which none was read yet.
    pub(crate) fn new(rt: R, alloc: Global, folder: String) -> Self {
        LogFolder {
            rt,
            alloc,
            folder,
            places: [None, None, None, None, None, None, None, None],
            cuts: [None; MAX_WIDTH],
        }
    }

    /// How many entries a region's file has.
    pub(crate) fn len(&mut self, region: u8) -> Result<u64, IoFault>
        requires { region < MAX_WIDTH }
    {
        let places = self.take_places(region)?;
        let len = places.len();
        self.places[region as usize] = Some(places);
        Ok(len)
    }

    /// The bytes of an entry. A number past the last entry is a fault.
    pub(crate) fn read(&mut self, alloc: Global, region: u8, entry: u64) -> Result<Vec<u8>, IoFault>
        requires { region < MAX_WIDTH }
    {
        let places = self.take_places(region)?;
        let begin = places.begin(entry);
        self.places[region as usize] = Some(places);
        let begin = begin.ok_or(IoFault::Failed)?;
        let path = self.path(region)?;
        let mut file = fs::open(&self.rt, path.as_path())?;
        Ok(read_entry(alloc, &mut file, begin)?)
    }

    /// Writes an entry behind the others; one of more bytes than the limit is a fault. What needs memory comes
    /// before the first byte is written. After another error nothing is known of the file. If it came while the
    /// entry was written, then the next call cuts the entry off before it reads the file again: a second sync may
    /// go well although the first one lost what was written. Where the cut fails, the call after that tries again.
    pub(crate) fn append(&mut self, region: u8, bytes: &[u8]) -> Result<(), IoFault>
        requires { region < MAX_WIDTH }
    {
        let len = entry_len(bytes)?;
        let mut places = self.take_places(region)?;
        let begin = places.end();
        places.add(len)?;
        let path = self.path(region)?;
        let mut file = open_to_write(&self.rt, path.as_path(), true)?;
        if write_entry(&mut file, begin, len, bytes).is_err() {
            self.cuts[region as usize] = Some(begin);
            return Err(IoFault::Failed);
        }
        self.places[region as usize] = Some(places);
        Ok(())
    }

    // What is known of a region's file, read where nothing is. Until it is put back nothing is known.
    fn take_places(&mut self, region: u8) -> io::Result<Places>
        requires { region < MAX_WIDTH }
    {
        match self.places[region as usize].take() {
            Some(places) => Ok(places),
            None => {
                self.make_cut(region)?;
                self.read_places(region)
            }
        }
    }

    // Cuts a region's file where it is to be cut. Where that fails, the next call tries it again.
    fn make_cut(&mut self, region: u8) -> io::Result<()>
        requires { region < MAX_WIDTH }
    {
        if let Some(end) = self.cuts[region as usize] {
            let path = self.path(region)?;
            cut_back(&open_to_write(&self.rt, path.as_path(), false)?, end)?;
            self.cuts[region as usize] = None;
        }
        Ok(())
    }

    // Reads a region's file. One that isn't there has no entry.
    fn read_places(&mut self, region: u8) -> io::Result<Places>
        requires { region < MAX_WIDTH }
    {
        let path = self.path(region)?;
        match fs::open(&self.rt, path.as_path()) {
            Ok(file) => self.whole_places(region, file),
            Err(error) if error.kind() == ErrorKind::NotFound => Ok(Places::new(self.alloc)),
            Err(error) => Err(error),
        }
    }

    // The whole entries of a file, which is cut behind them. An append may have written them without coming to
    // its sync: they are told only when they stand on the disk. So does the cut before the next append writes
    // in its place, or a power failure could leave new bytes under the old length of the file.
    fn whole_places(&mut self, region: u8, file: R::File) -> io::Result<Places>
        requires { region < MAX_WIDTH }
    {
        file.sync_all()?;
        let len = file.metadata()?.len();
        let places = find_places(self.alloc, file, len)?;
        if places.end() < len {
            self.cuts[region as usize] = Some(places.end());
            self.make_cut(region)?;
        }
        Ok(places)
    }

    // The path of a region's file.
    fn path(&self, region: u8) -> Result<PathBuf, AllocError> {
        let name = format!(in self.alloc; "region-{region}.log")?;
        Path::new(self.folder.as_str()).join(self.alloc, name.as_str())
    }
}

// The length of an entry that isn't too long.
fn entry_len(bytes: &[u8]) -> Result<u32, IoFault> {
    match u32::try_from(bytes.len()) {
        Ok(len) if len <= MAX_ENTRY_BYTES => Ok(len),
        _ => Err(IoFault::Failed),
    }
}

// A file to write to, made where it isn't there and may be.
fn open_to_write<R: Files>(rt: &R, path: Path<'_>, create: bool) -> io::Result<R::File> {
    OpenOptions::new().write(true).create(create).open(rt, path)
}
