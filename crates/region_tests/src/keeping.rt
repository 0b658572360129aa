//! Keepers in memory whose entries words spell.
use codec_kit::bytes_of;
use geo_base::RegionNo;
use geo_io::{ByteList, Entries, Fail, MemKeepers};
use std::alloc::Global;
use std::test;

/// The entries, with a comma between two of them.
fn entries_of(alloc: Global, text: &str) -> Result<Entries, test::Fail> {
    let mut entries = Vec::new(alloc);
    for words in text.split(", ") {
        if !words.is_empty() {
            entries.push(ByteList::new(bytes_of(alloc, words)?))?;
        }
    }
    Ok(Entries::new(entries))
}

/// A call that fails, by its number of at most two digits, and behind it `+` where an append keeps its entry.
fn fail_of(word: &str) -> Option<Fail> {
    let digits = word.strip_suffix('+').unwrap_or(word);
    let call = match digits.parse() {
        Ok(call) => call,
        Err(_) => return None,
    };
    Some(Fail {
        call,
        kept: word.ends_with('+'),
    })
}

fn fails_of(alloc: Global, words: &str) -> Result<Vec<Fail>, test::Fail> {
    let fails = words.split(' ').filter_map(fail_of);
    Ok(fails.collect(alloc)?)
}

/// Keepers in which the region, which is 0 or 1, has these entries, and whose calls fail so.
pub fn keepers_for(
    alloc: Global,
    no: RegionNo,
    entries: &str,
    fails: &str,
) -> Result<MemKeepers, test::Fail> {
    let own = entries_of(alloc, entries)?;
    let lists = if no == 0 {
        vec![in alloc; own]?
    } else {
        vec![in alloc; Entries::new(Vec::new(alloc)), own]?
    };
    Ok(MemKeepers::new(alloc, lists, fails_of(alloc, fails)?))
}
