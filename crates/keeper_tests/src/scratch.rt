//! A folder of a test's own.

use std::test::Fail;
use std::{env, fs, process};

/// The path of an empty folder that no other test has, since each test is a process. The test removes it.
pub fn make_folder(rt: &HostRuntime) -> Result<String, Fail> {
    let path = folder_path(rt)?;
    if fs::exists(rt, path.as_str())? {
        fs::remove_dir_all(rt, path.as_str())?;
    }
    fs::create_dir(rt, path.as_str())?;
    Ok(path)
}

fn folder_path(rt: &HostRuntime) -> Result<String, Fail> {
    let process = process::id(rt.process());
    let name = format!(in rt.alloc(); "keeper-tests-{process}")?;
    let path = env::temp_dir(rt)?.join(rt.alloc(), name.as_str())?;
    Ok(path.into_string())
}

/// The path of a region's file.
pub fn log_path(rt: &HostRuntime, folder: &str, region: u8) -> Result<String, Fail> {
    Ok(format!(in rt.alloc(); "{folder}/region-{region}.log")?)
}

/// Writes a region's file.
pub fn write_log(rt: &HostRuntime, folder: &str, region: u8, bytes: &[u8]) -> Result<(), Fail> {
    Ok(fs::write(rt, log_path(rt, folder, region)?, bytes)?)
}
