//! What bytes are told, by the lines of a table.
use codec_kit::{bytes_behind, line_of, schema_named};
use geo_base::NoMemory;
use geo_schema::Schema;
use set_codec::{CodecFault, read_batch, read_packet};
use std::alloc::Global;
use std::test::Fail;

/// What bytes are to be.
#[derive(Clone, Copy)]
pub enum Form {
    Batch,
    Packet,
}

fn fault_of(
    alloc: Global,
    form: Form,
    schema: &Schema,
    regions: u8,
    bytes: &[u8],
) -> Option<CodecFault> {
    match form {
        Form::Batch => read_batch(alloc, schema, regions, bytes).err(),
        Form::Packet => read_packet(alloc, schema, regions, bytes).err(),
    }
}

/// Whether this is told: that the bytes fit, or the fault as it is written in Rust.
fn is_answer(alloc: Global, told: Option<CodecFault>, want: &str) -> Result<bool, NoMemory> {
    match told {
        Some(fault) => Ok(format!(in alloc; "{fault:?}")?.as_str() == want),
        None => Ok(want == "fits"),
    }
}

fn is_told(alloc: Global, form: Form, mark: &str, text: &str) -> Result<bool, Fail> {
    let line = line_of(text)?;
    let regions = line.word.parse()?;
    let bytes = bytes_behind(alloc, mark, line.words)?;
    let schema = schema_named(alloc, line.tables)?;
    let fault = fault_of(alloc, form, &schema, regions, bytes.as_slice());
    drop(schema);
    drop(bytes);
    Ok(is_answer(alloc, fault, line.want)?)
}

/// Fails with the first line whose bytes, behind a mark, are told something else. A line has its tables, the number of
/// regions, the bytes, an arrow and what they are told.
pub fn are_told(alloc: Global, form: Form, mark: &str, lines: &str) -> Result<(), Fail> {
    for line in lines.lines() {
        if !is_told(alloc, form, mark, line)? {
            return Err(Fail::new(line));
        }
    }
    Ok(())
}
