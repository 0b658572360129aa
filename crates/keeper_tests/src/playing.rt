//! What is asked of keepers over a folder and of its files, as lines of a text.
//!
//! A line has the number of a region, what is asked, often a word, and behind an arrow what is told. Of keepers it is
//! `len`, `read` of the entry of a number, which tells its length, `entries`, `append` of a text, and `long`, an
//! append of so many bytes; the last two tell how many entries there are then, and `put` of a text tells of an append
//! alone, which has the number 0. Of the region's file it is `write`, `holds`, which tells whether it has just these
//! bytes, `there`, and `folder`, which makes a folder in its place; of the folder of all files `gone`, which removes
//! it, and `stands`, which tells whether there is one. In the bytes of a file a digit stands for the byte of that
//! number, `~` for the byte 128, and all else for itself. Behind a line `anew` the keepers are new ones.
ghost use Rattle.std.specs.Prelude.{◌≡◌, ◌<◌, IfSome};

use crate::asking::entries;
use crate::scratch::{log_path, make_folder, write_log};
use geo_io::{FolderKeepers, IoFault, Keepers};
use std::alloc::{AllocError, Global};
use std::test::Fail;
use std::{fs, io};

/// Plays lines over an empty folder of the test's own.
pub fn play(rt: &HostRuntime, text: &str) -> Result<(), Fail> {
    let folder = make_folder(rt)?;
    play_in(rt, &folder, text)
}

/// The same, where region 3 has this file.
pub fn play_over(rt: &HostRuntime, file: &str, text: &str) -> Result<(), Fail> {
    let folder = make_folder(rt)?;
    write_log(rt, &folder, 3, &bytes_of(rt.alloc(), file)?)?;
    play_in(rt, &folder, text)
}

// Plays the lines in this folder, and removes it.
fn play_in(rt: &HostRuntime, folder: &str, text: &str) -> Result<(), Fail> {
    for lines in text.split("anew\n") {
        play_anew(rt, folder, lines)?;
    }
    if fs::exists(rt, folder)? {
        fs::remove_dir_all(rt, folder)?;
    }
    Ok(())
}

// Plays the lines over new keepers.
fn play_anew(rt: &HostRuntime, folder: &str, lines: &str) -> Result<(), Fail> {
    let folder_of = String::from_str(rt.alloc(), folder)?;
    let mut keepers = hand_over(FolderKeepers::new(rt.clone()?, rt.alloc(), folder_of));
    let played = play_lines(rt, folder, &mut keepers, lines);
    drop(keepers);
    played
}

// Keepers may be handed to another thread.
fn hand_over<K: Keepers + Send>(keepers: K) -> K
    ensures { result ≡ keepers }
{
    keepers
}

// Plays the lines. The first that is told something else than it says is the failure.
fn play_lines(
    rt: &HostRuntime,
    folder: &str,
    keepers: &mut FolderKeepers<HostRuntime>,
    lines: &str,
) -> Result<(), Fail> {
    for line in lines.lines() {
        if !is_told(rt, folder, keepers, line)? {
            return Err(Fail::new(line));
        }
    }
    Ok(())
}

// What a line asks, and what it is to be told.
#[derive(Clone, Copy)]
struct Asked<'a> {
    region: u8,
    what: &'a str,
    word: &'a str,
    want: &'a str,
}

fn asked_in(line: &str) -> Option<Asked<'_>>
    ensures { IfSome result (λ asked. asked.region < 8) }
{
    let (words, want) = line.split_once(" => ")?;
    let (what, word) = words
        .get(2..)?
        .split_once(' ')
        .unwrap_or((words.get(2..)?, ""));
    let region = words.as_bytes().first()?.wrapping_sub(b'0');
    if region > 7 {
        return None;
    }
    Some(Asked {
        region,
        what,
        word,
        want,
    })
}

// Whether a line is told what it says.
fn is_told(
    rt: &HostRuntime,
    folder: &str,
    keepers: &mut FolderKeepers<HostRuntime>,
    line: &str,
) -> Result<bool, Fail> {
    let asked = asked_in(line).ok_or("no line")?;
    match asked.what {
        "len" | "read" | "append" | "put" | "long" => is_number(rt.alloc(), keepers, asked),
        "entries" => are_entries(rt.alloc(), keepers, asked),
        _ => is_on_disk(rt, folder, asked),
    }
}

fn is_number(
    alloc: Global,
    keepers: &mut FolderKeepers<HostRuntime>,
    asked: Asked<'_>,
) -> Result<bool, Fail>
    requires { asked.region < 8 }
{
    let number = number(alloc, keepers, asked);
    Ok(format!(in alloc; "{number:?}")?.as_str() == asked.want)
}

// What is told as a number.
fn number(
    alloc: Global,
    keepers: &mut FolderKeepers<HostRuntime>,
    asked: Asked<'_>,
) -> Result<u64, IoFault>
    requires { asked.region < 8 }
{
    match asked.what {
        "len" => Ok(keepers.len(asked.region)?),
        "read" => read(alloc, keepers, asked.region, number_of(asked.word)),
        "append" => append(keepers, asked.region, asked.word.as_bytes()),
        "put" => put(keepers, asked.region, asked.word.as_bytes()),
        _ => append(keepers, asked.region, &long(alloc, number_of(asked.word))?),
    }
}

fn number_of(word: &str) -> u64 {
    word.parse().unwrap_or(0)
}

fn read(
    alloc: Global,
    keepers: &mut FolderKeepers<HostRuntime>,
    region: u8,
    entry: u64,
) -> Result<u64, IoFault>
    requires { region < 8 }
{
    Ok(keepers.read(alloc, region, entry)?.len() as u64)
}

fn append(
    keepers: &mut FolderKeepers<HostRuntime>,
    region: u8,
    bytes: &[u8],
) -> Result<u64, IoFault>
    requires { region < 8 }
{
    keepers.append(region, bytes)?;
    Ok(keepers.len(region)?)
}

fn put(keepers: &mut FolderKeepers<HostRuntime>, region: u8, bytes: &[u8]) -> Result<u64, IoFault>
    requires { region < 8 }
{
    keepers.append(region, bytes)?;
    Ok(0)
}

// So many bytes.
fn long(alloc: Global, count: u64) -> Result<Vec<u8>, AllocError> {
    vec![in alloc; 7; count as usize]
}

fn are_entries(
    alloc: Global,
    keepers: &mut FolderKeepers<HostRuntime>,
    asked: Asked<'_>,
) -> Result<bool, Fail>
    requires { asked.region < 8 }
{
    Ok(entries(alloc, keepers, asked.region)?.as_slice() == asked.want.as_bytes())
}

fn is_on_disk(rt: &HostRuntime, folder: &str, asked: Asked<'_>) -> Result<bool, Fail> {
    let path = log_path(rt, folder, asked.region)?;
    let bytes = bytes_of(rt.alloc(), asked.word)?;
    let told = told_on_disk(rt, folder, &path, asked.what, &bytes)?;
    Ok(told == asked.want)
}

// What a file has, or what is done to it.
fn told_on_disk(
    rt: &HostRuntime,
    folder: &str,
    path: &str,
    what: &str,
    bytes: &[u8],
) -> io::Result<&'static str> {
    match what {
        "write" => fs::write(rt, path, bytes)?,
        "folder" => fs::create_dir(rt, path)?,
        "gone" => fs::remove_dir_all(rt, folder)?,
        "there" => return Ok(told(fs::exists(rt, path)?)),
        "stands" => return Ok(told(fs::exists(rt, folder)?)),
        "holds" => return Ok(told(fs::read(rt, path)?.as_slice() == bytes)),
        _ => return Ok("no such word"),
    }
    Ok("done")
}

fn told(is_so: bool) -> &'static str {
    if is_so { "true" } else { "false" }
}

// The bytes of a file that a word stands for.
fn bytes_of(alloc: Global, word: &str) -> Result<Vec<u8>, Fail> {
    let bytes = word.as_bytes().iter().map(|byte| byte_of(*byte));
    Ok(bytes.collect(alloc)?)
}

fn byte_of(character: u8) -> u8 {
    match character {
        b'0'..=b'9' => character - b'0',
        b'~' => 128,
        _ => character,
    }
}
