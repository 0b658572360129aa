// A file of entries: of each its length, as a big-endian number of four bytes, and then its bytes.

use crate::limits::MAX_ENTRY_BYTES;
use byteorder::{BigEndian, ReadBytesExt, WriteBytesExt};
use std::alloc::Global;
use std::fs::OpenFile;
use std::io;
use std::io::{BufReader, ErrorKind, Read, Seek, SeekFrom, Write};

/// How many bytes tell an entry's length.
const HEADER: u64 = 4;

/// Where the whole entries of a file begin, oldest first, and where the last of them ends.
#[derive(Drop)]
pub(crate) struct Places {
    begins: Vec<u64>,
    end: u64,
}

impl Places {
    /// A file without an entry.
    pub(crate) fn new(alloc: Global) -> Self {
        Places {
            begins: Vec::new(alloc),
            end: 0,
        }
    }

    /// How many entries there are.
    pub(crate) fn len(&self) -> u64 {
        self.begins.len() as u64
    }

    /// Where an entry begins, if there is one of this number.
    pub(crate) fn begin(&self, entry: u64) -> Option<u64> {
        self.begins.get(entry as usize).copied()
    }

    /// Where the last entry ends.
    pub(crate) fn end(&self) -> u64 {
        self.end
    }

    /// One more entry behind the others, of so many bytes.
    pub(crate) fn add(&mut self, len: u32) -> io::Result<()> {
        let Some(end) = self.end.checked_add(HEADER + u64::from(len)) else {
            return Err(io::Error::from(ErrorKind::FileTooLarge));
        };
        self.begins.push(self.end)?;
        self.end = end;
        Ok(())
    }
}

/// The places of the whole entries in the first `len` bytes of a file. It reads the lengths, and skips the bytes
/// of the entries. What stands behind them is the front of one more entry, which a write that was cut off leaves.
/// A length above the limit is an error, since no write leaves it.
pub(crate) fn find_places<F: Read + Seek + Drop>(
    alloc: Global,
    file: F,
    len: u64,
) -> io::Result<Places> {
    let mut reader = BufReader::new(alloc, file)?;
    let mut places = Places::new(alloc);
    for _ in 0..len / HEADER {
        match next_len(&mut reader, len.saturating_sub(places.end()))? {
            Some(entry_len) => places.add(entry_len)?,
            None => break,
        }
    }
    Ok(places)
}

// The length of the entry that comes next, where all of it lies in the `left` bytes that are left. The reader
// stands behind it then.
fn next_len<F: Read + Seek>(reader: &mut BufReader<F>, left: u64) -> io::Result<Option<u32>> {
    let Some(room) = left.checked_sub(HEADER) else {
        return Ok(None);
    };
    let len = read_len(reader)?;
    if u64::from(len) > room {
        return Ok(None);
    }
    reader.seek_relative(i64::from(len))?;
    Ok(Some(len))
}

// A length of at most the limit.
fn read_len<F: Read>(file: &mut F) -> io::Result<u32> {
    let len = file.read_u32::<BigEndian>()?;
    if len > MAX_ENTRY_BYTES {
        return Err(io::Error::from(ErrorKind::InvalidData));
    }
    Ok(len)
}

/// The bytes of the entry that begins at a place.
pub(crate) fn read_entry<F: Read + Seek>(
    alloc: Global,
    file: &mut F,
    begin: u64,
) -> io::Result<Vec<u8>> {
    file.seek(SeekFrom::Start(begin))?;
    let len = read_len(file)?;
    let mut bytes = vec![in alloc; 0; len as usize]?;
    file.read_exact(&mut bytes)?;
    Ok(bytes)
}

/// Cuts a file behind its first bytes, and waits until that stands on the disk.
pub(crate) fn cut_back<F: OpenFile>(file: &F, end: u64) -> io::Result<()> {
    file.set_len(end)?;
    file.sync_all()
}

/// Writes an entry at a place, and waits until it stands on the disk.
pub(crate) fn write_entry<F: Write + Seek + OpenFile>(
    file: &mut F,
    begin: u64,
    len: u32,
    bytes: &[u8],
) -> io::Result<()> {
    file.seek(SeekFrom::Start(begin))?;
    file.write_u32::<BigEndian>(len)?;
    file.write_all(bytes)?;
    file.sync_all()
}
