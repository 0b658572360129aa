//! Keepers over the files of a folder: what they leave there, and what they make of it.

use crate::playing::{play, play_over};
use std::test::Fail;

/// An empty folder, and then what was left in it.
const LEFT: &str = "\
0 len => Ok(0)
0 append first => Ok(1)
7 append other => Ok(1)
0 append  => Ok(2)
0 append second => Ok(3)
0 holds 0005first00000006second => true
0 entries => first||second|
7 entries => other|
6 len => Ok(0)
anew
0 entries => first||second|
7 entries => other|
6 len => Ok(0)
6 there => false";

/// Without its folder a log is empty, and nothing can be kept in it.
const GONE: &str = "\
0 gone => done
anew
0 len => Ok(0)
0 put lost => Err(Failed)
0 len => Ok(0)
0 there => false
0 stands => false";

/// A number past the list is a fault, and so is a file that is none.
const NONE: &str = "\
1 append one => Ok(1)
1 read 1 => Err(Failed)
1 read 0 => Ok(3)
2 folder => done
2 len => Err(Failed)
2 put two => Err(Failed)";

/// A length that was changed to more than an entry has is a fault, and the file stays as it is.
const LENGTHS: &str = "\
3 write 0005first1002ab0003abc => done
3 len => Err(Failed)
3 read 0 => Err(Failed)
3 put next => Err(Failed)
3 holds 0005first1002ab0003abc => true
anew
3 write 0005first~002ab0003abc => done
3 len => Err(Failed)
3 read 0 => Err(Failed)
3 put next => Err(Failed)
3 holds 0005first~002ab0003abc => true
anew
3 write 0005first0@01ab0003abc => done
3 len => Err(Failed)
3 read 0 => Err(Failed)
3 put next => Err(Failed)
3 holds 0005first0@01ab0003abc => true";

/// The second length is the most that an entry has, and reaches past the end.
const LONGEST: &str = "\
3 write 0005first0@00ab => done
3 entries => first|
3 holds 0005first => true";

/// An entry of the most bytes is kept, and one of a byte more is a fault that writes nothing.
const LONG: &str = "\
4 long 4194305 => Err(Failed)
4 there => false
4 long 4194304 => Ok(1)
anew
4 read 0 => Ok(4194304)";

#[test]
fn files_are_told_as_they_were_left(rt: HostRuntime) -> Result<(), Fail> {
    for text in [LEFT, GONE, NONE, LENGTHS, LONGEST, LONG] {
        play(&rt, text)?;
    }
    Ok(())
}

/// Entries of five, of no and of three bytes: they end behind 9, 13 and 20 bytes.
const WHOLE: &str = "0005first00000003abc";

/// What is told of this file where it is cut in the first entry, and so on.
const NO_ENTRY: &str = "\
3 entries => 
3 holds  => true
3 append next => Ok(1)
anew
3 entries => next|
3 holds 0004next => true";

const ONE_ENTRY: &str = "\
3 entries => first|
3 holds 0005first => true
3 append next => Ok(2)
anew
3 entries => first|next|
3 holds 0005first0004next => true";

const TWO_ENTRIES: &str = "\
3 entries => first||
3 holds 0005first0000 => true
3 append next => Ok(3)
anew
3 entries => first||next|
3 holds 0005first00000004next => true";

const ALL_ENTRIES: &str = "\
3 entries => first||abc|
3 holds 0005first00000003abc => true
3 append next => Ok(4)
anew
3 entries => first||abc|next|
3 holds 0005first00000003abc0004next => true";

// What is told where the file is cut behind so many bytes.
fn lines_of(cut: usize) -> &'static str {
    match cut {
        0..9 => NO_ENTRY,
        9..13 => ONE_ENTRY,
        13..20 => TWO_ENTRIES,
        _ => ALL_ENTRIES,
    }
}

#[test]
fn a_cut_file_has_its_whole_entries(rt: HostRuntime) -> Result<(), Fail> {
    for cut in 0..=WHOLE.len() {
        play_over(&rt, WHOLE.get(..cut).unwrap_or(""), lines_of(cut))?;
    }
    Ok(())
}
