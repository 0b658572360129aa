//! A region over a folder: what it leaves there, and what it makes of it.
ghost use Rattle.std.specs.Prelude.{◌≡◌, ◌<◌};

use crate::telling::{reply_text, sealed_text, standing};
use codec_kit::{bytes_of, halves, schema_named};
use geo_base::limits::LAST_EPOCH;
use geo_io::FolderKeepers;
use region_core::{Region, SealFault, Sealed};
use std::alloc::Global;
use std::test::Fail;
use std::{env, fs, process};

/// The path of an empty folder that no other test has, since each test is a process.
fn make_folder(rt: &HostRuntime) -> Result<String, Fail> {
    let process = process::id(rt.process());
    let name = format!(in rt.alloc(); "region-tests-{process}")?;
    let path = env::temp_dir(rt)?
        .join(rt.alloc(), name.as_str())?
        .into_string();
    if fs::exists(rt, path.as_str())? {
        fs::remove_dir_all(rt, path.as_str())?;
    }
    fs::create_dir(rt, path.as_str())?;
    Ok(path)
}

/// Keepers over the folder.
fn keepers_in(rt: &HostRuntime, folder: &str) -> Result<FolderKeepers<HostRuntime>, Fail> {
    let folder = String::from_str(rt.alloc(), folder)?;
    Ok(FolderKeepers::new(rt.clone()?, rt.alloc(), folder))
}

/// The first of two regions over what is in the folder.
fn region_in(rt: &HostRuntime, folder: &str) -> Result<Region, Fail> {
    let schema = schema_named(rt.alloc(), "numbers")?;
    let mut logs = keepers_in(rt, folder)?;
    Ok(Region::open(rt.alloc(), 0, 2, &schema, LAST_EPOCH, &mut logs)?)
}

/// What was sealed, and where the region stands then.
fn seal_text(
    alloc: Global,
    region: &Region,
    sealed: Result<Sealed, SealFault>,
) -> Result<String, Fail> {
    let mut out = sealed_text(alloc, sealed)?;
    out.push_str("; ")?;
    out.push_str(&standing(alloc, region)?)?;
    Ok(out)
}

/// Opens the region, seals a batch without candidates, and tells where it stands then.
fn sealed_in(rt: &HostRuntime, folder: &str) -> Result<String, Fail> {
    let mut region = region_in(rt, folder)?;
    let mut logs = keepers_in(rt, folder)?;
    if region.life() == u64::MAX {
        return Err("the last life".into());
    }
    let sealed = region.seal(&mut logs);
    drop(logs);
    let told = seal_text(rt.alloc(), &region, sealed);
    drop(region);
    told
}

/// Lets the region's file have these bytes.
fn write_log(rt: &HostRuntime, folder: &str, words: &str) -> Result<(), Fail> {
    let path = format!(in rt.alloc(); "{folder}/region-0.log")?;
    Ok(fs::write(rt, path, &bytes_of(rt.alloc(), words)?)?)
}

/// What a region that was opened on a batch of epoch 1 replies for it where its file has become another.
fn fetched_in(rt: &HostRuntime, folder: &str, words: &str) -> Result<String, Fail> {
    write_log(rt, folder, "#13 GGB2 0 #1 #0")?;
    let mut region = region_in(rt, folder)?;
    write_log(rt, folder, words)?;
    let mut logs = keepers_in(rt, folder)?;
    let reply = region.fetch_reply(1, &mut logs);
    drop(region);
    drop(logs);
    reply_text(rt.alloc(), reply, "GGB2 0 #1 #0")
}

/// Two seals, each by a region that is opened anew.
const SEALED: [&str; 2] = [
    "1 with 0 in 13 bytes; true published 0 open 2 with 0 horizon 0 life 0",
    "2 with 0 in 13 bytes; true published 0 open 3 with 0 horizon 0 life 0",
];

/// The file, and what is replied: whether it is the batch as it was sealed, or a fault. The same batch in the other
/// format is one too; another batch is none, nor are other bytes.
const FETCHED: &str = "\
#13 GGB2 0 #1 #0 => true
#13 GGB1 0 #1 #0 => false
#13 GGB2 0 #2 #0 => BadLog(1)
#13 GGB2 1 #1 #0 => BadLog(1)
#13 GGB2 0 #1 #0 7 => true
#2 7 7 => BadLog(1)
 => LogFault";

fn are_told(rt: &HostRuntime, folder: &str) -> Result<(), Fail> {
    for want in SEALED {
        if sealed_in(rt, folder)?.as_str() != want {
            return Err(Fail::new(want));
        }
    }
    for line in FETCHED.lines() {
        let (words, want) = halves(line, " => ")?;
        if fetched_in(rt, folder, words)?.as_str() != want {
            return Err(Fail::new(line));
        }
    }
    Ok(())
}

#[test]
fn a_folder_has_what_a_region_seals(rt: HostRuntime) -> Result<(), Fail> {
    let folder = make_folder(&rt)?;
    are_told(&rt, &folder)?;
    Ok(fs::remove_dir_all(&rt, folder.as_str())?)
}
