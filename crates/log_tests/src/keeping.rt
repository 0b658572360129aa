//! Keepers whose entries are written as words: hexadecimal digits, and `-` for an entry without bytes.
ghost use Rattle.std.specs.Prelude.{◌<◌, IfOk};

use geo_base::RegionNo;
use geo_io::{ByteList, CleanKeepers, Entries, Fail, MemKeepers};
use geo_schema::Schema;
use geo_script::{Form, read_script};
use std::alloc::Global;
use std::test;

/// The schema of all logs here.
const LINES: &str = "\
geogauss play 1
regions 2
table acc (id INT KEY, amount INT)
begin
";

/// A table of accounts, with a number as their key and another number.
pub fn accounts(alloc: Global) -> Result<Schema, test::Fail> {
    Ok(read_script(alloc, LINES.as_bytes(), Form::Play)?.schema)
}

/// The bytes of the digits.
pub fn bytes_of(alloc: Global, digits: &str) -> Result<Vec<u8>, test::Fail> {
    Ok(hex::decode(alloc, digits)?)
}

fn entry_of(alloc: Global, word: &str) -> Result<ByteList, test::Fail> {
    let digits = if word == "-" { "" } else { word };
    Ok(ByteList::new(bytes_of(alloc, digits)?))
}

/// The entries of the words.
fn entries_of(alloc: Global, words: &str) -> Result<Entries, test::Fail> {
    let mut entries = Vec::new(alloc);
    for word in words.split_whitespace() {
        entries.push(entry_of(alloc, word)?)?;
    }
    Ok(Entries::new(entries))
}

/// Keepers in which the region, which is 0 or 1, has these entries, and the other one has an entry that is no
/// batch.
pub fn keepers_of(
    alloc: Global,
    region: RegionNo,
    words: &str,
) -> Result<CleanKeepers, test::Fail> {
    let (zero, one) = if region == 0 {
        (words, "ff")
    } else {
        ("ff", words)
    };
    let mut lists = Vec::new(alloc);
    lists.push(entries_of(alloc, zero)?)?;
    lists.push(entries_of(alloc, one)?)?;
    Ok(CleanKeepers::new(alloc, lists))
}

/// A call that fails, by its number of one digit, and behind it `+` where an append keeps its entry.
fn fail_of(word: &str) -> Option<Fail> {
    let call = *word.as_bytes().first()?;
    Some(Fail {
        call: u64::from(call.wrapping_sub(b'0')),
        kept: word.ends_with('+'),
    })
}

fn fails_of(alloc: Global, words: &str) -> Result<Vec<Fail>, test::Fail> {
    let fails = words.split(' ').filter_map(fail_of);
    Ok(fails.collect(alloc)?)
}

/// Keepers in which region 0 has these entries, and whose calls fail so.
pub fn failing_keepers(alloc: Global, words: &str, fails: &str) -> Result<MemKeepers, test::Fail> {
    let lists = vec![in alloc; entries_of(alloc, words)?]?;
    Ok(MemKeepers::new(alloc, lists, fails_of(alloc, fails)?))
}

/// A number below 8.
pub fn small(word: &str) -> Result<u8, test::Fail>
    ensures { IfOk result (λ number. number < 8) }
{
    let number: u8 = word.parse()?;
    if number < 8 {
        Ok(number)
    } else {
        Err("a number above 7".into())
    }
}
