//! What texts are read as: scripts, or the first bad line.
pub use geo_script::ScriptRefusal as Refusal;
use geo_script::{Form, Script, read_script};
use std::alloc::{AllocError, Global};

const PLAY: &[u8] = b"geogauss play 1\nregions 3\ntable kv (k INT KEY, v INT)\nbegin\n";

const RUN: &[u8] = b"geogauss run 1\nregions 3\ntable kv (k INT KEY, v INT)\nbegin\n";

/// Whether the answer is this first bad line, with what is wrong with it as Rust writes it.
pub fn is_bad(
    alloc: Global,
    found: Result<(), Refusal>,
    line: u32,
    kind: &str,
) -> Result<bool, AllocError> {
    match found {
        Err(Refusal::Script(fault)) => {
            let name = format!(in alloc; "{:?}", fault.kind)?;
            Ok(fault.line == line && name.as_str() == kind)
        }
        _ => Ok(false),
    }
}

/// Whether the text fits, where that is wanted, or has this first bad line.
pub fn is_told(
    alloc: Global,
    found: Result<(), Refusal>,
    line: u32,
    wanted: &str,
) -> Result<bool, AllocError> {
    if wanted == "fits" {
        return Ok(found.is_ok());
    }
    is_bad(alloc, found, line, wanted)
}

/// Whether the text is a script.
pub fn read(alloc: Global, form: Form, text: &[u8]) -> Result<(), Refusal> {
    match read_script(alloc, text, form) {
        Ok(_) => Ok(()),
        Err(fault) => Err(fault),
    }
}

pub fn joined(alloc: Global, first: &[u8], second: &[u8]) -> Result<Vec<u8>, AllocError> {
    let mut text = first.to_vec(alloc)?;
    text.extend_from_slice(second)?;
    Ok(text)
}

/// A head of four lines for three regions, and the lines behind it.
fn with_head(alloc: Global, form: Form, lines: &[u8]) -> Result<Vec<u8>, AllocError> {
    match form {
        Form::Play => joined(alloc, PLAY, lines),
        Form::Run => joined(alloc, RUN, lines),
    }
}

/// Whether the lines behind such a head are those of a script.
pub fn read_lines(alloc: Global, form: Form, lines: &[u8]) -> Result<(), Refusal> {
    let text = with_head(alloc, form, lines)?;
    read(alloc, form, &text)
}

/// The script of the lines behind such a head.
pub fn script_of(alloc: Global, form: Form, lines: &[u8]) -> Result<Script, Refusal> {
    let text = with_head(alloc, form, lines)?;
    read_script(alloc, &text, form)
}
