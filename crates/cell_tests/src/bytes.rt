//! Bytes as words: a number is one byte, and behind `@` it is the cell of a number.
use std::alloc::Global;
use std::test::Fail;

fn add_word(out: &mut Vec<u8>, word: &str) -> Result<(), Fail> {
    match word.strip_prefix('@') {
        Some(digits) => {
            let number: i64 = digits.parse()?;
            out.push(1)?;
            out.extend_from_slice(&number.to_be_bytes())?;
        }
        None => out.push(word.parse()?)?,
    }
    Ok(())
}

/// The bytes of the words.
pub fn bytes_of(alloc: Global, words: &str) -> Result<Vec<u8>, Fail> {
    let mut out = Vec::new(alloc);
    for word in words.split_whitespace() {
        add_word(&mut out, word)?;
    }
    Ok(out)
}
