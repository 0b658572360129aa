//! Bytes as words.
//!
//! A number is one byte, `#` begins a number of four bytes, `@` the cell of a number, `x` hexadecimal digits, and `GGB1`
//! or `GGB2` is what a batch begins with. `*` begins a number of candidates that each touch a row, and `%` two numbers
//! with a comma between them, which are a candidate that puts so many rows, the first of them with so many letters.
use crate::lines::halves;
use geo_base::NoMemory;
use std::alloc::Global;
use std::test::Fail;

/// A candidate with start 0 that touches the row 1.
const TOUCHING: [u8; 19] = [0, 0, 0, 0, 0, 0, 0, 1, 0, 3, 1, 0, 0, 0, 0, 0, 0, 0, 1];

fn add_number(out: &mut Vec<u8>, digits: &str) -> Result<(), Fail> {
    let number: u32 = digits.parse()?;
    Ok(out.extend_from_slice(&number.to_be_bytes())?)
}

fn add_cell(out: &mut Vec<u8>, digits: &str) -> Result<(), Fail> {
    let number: i64 = digits.parse()?;
    let [a, b, c, d, e, f, g, h] = number.to_be_bytes();
    Ok(out.extend_from_slice(&[1, a, b, c, d, e, f, g, h])?)
}

fn add_digits(alloc: Global, out: &mut Vec<u8>, digits: &str) -> Result<(), Fail> {
    let bytes = hex::decode(alloc, digits)?;
    Ok(out.extend_from_slice(&bytes)?)
}

fn add_touching(out: &mut Vec<u8>, digits: &str) -> Result<(), Fail> {
    let count: u32 = digits.parse()?;
    for _ in 0..count {
        out.extend_from_slice(&TOUCHING)?;
    }
    Ok(())
}

/// A put of the row with this key and so many letters, of which it has 14 bytes more.
fn add_put(out: &mut Vec<u8>, key: u32, letters: u16) -> Result<(), NoMemory> {
    let [a, b, c, d] = key.to_be_bytes();
    let [e, f] = letters.to_be_bytes();
    out.extend_from_slice(&[0, 1, 1, 0, 0, 0, 0, a, b, c, d, 2, e, f])?;
    let end = out.len().saturating_add(usize::from(letters));
    Ok(out.resize(end, b'x')?)
}

/// A candidate with start 0 that puts so many rows of 1,024 bytes each, but for the first, which has so many letters.
fn add_puts(out: &mut Vec<u8>, rows: u32, first: u16) -> Result<(), NoMemory> {
    let [a, b, c, d] = rows.to_be_bytes();
    out.extend_from_slice(&[0, 0, 0, 0, a, b, c, d])?;
    for key in 0..rows {
        add_put(out, key, if key == 0 { first } else { 1010 })?;
    }
    Ok(())
}

fn add_putting(out: &mut Vec<u8>, numbers: &str) -> Result<(), Fail> {
    let (rows, first) = halves(numbers, ",")?;
    Ok(add_puts(out, rows.parse()?, first.parse()?)?)
}

fn add_word(alloc: Global, out: &mut Vec<u8>, word: &str) -> Result<(), Fail> {
    if let Some(digits) = word.strip_prefix('#') {
        return add_number(out, digits);
    }
    if let Some(digits) = word.strip_prefix('@') {
        return add_cell(out, digits);
    }
    if word.starts_with("GGB") {
        return Ok(out.extend_from_slice(word.as_bytes())?);
    }
    if let Some(digits) = word.strip_prefix('x') {
        return add_digits(alloc, out, digits);
    }
    if let Some(digits) = word.strip_prefix('*') {
        return add_touching(out, digits);
    }
    if let Some(numbers) = word.strip_prefix('%') {
        return add_putting(out, numbers);
    }
    Ok(out.push(word.parse()?)?)
}

/// The bytes of the words.
pub fn bytes_of(alloc: Global, words: &str) -> Result<Vec<u8>, Fail> {
    bytes_behind(alloc, "", words)
}

/// The bytes of a mark and of the words behind it.
pub fn bytes_behind(alloc: Global, mark: &str, words: &str) -> Result<Vec<u8>, Fail> {
    let mut out = Vec::from_slice(alloc, mark.as_bytes())?;
    for word in words.split_whitespace() {
        add_word(alloc, &mut out, word)?;
    }
    Ok(out)
}

/// The bytes of a batch with this digit as the last letter of its mark.
pub fn marked(alloc: Global, bytes: &[u8], digit: u8) -> Result<Vec<u8>, NoMemory> {
    let mut bytes = Vec::from_slice(alloc, bytes)?;
    if bytes.len() > 3 {
        bytes[3] = digit;
    }
    Ok(bytes)
}
