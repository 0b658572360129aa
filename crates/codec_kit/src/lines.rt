//! Lines of tables, taken apart.
use std::test::Fail;

/// What stands before and behind the first of these marks.
pub fn halves<'a>(text: &'a str, mark: &str) -> Result<(&'a str, &'a str), Fail> {
    match text.split_once(mark) {
        Some(halves) => Ok(halves),
        None => Err(Fail::new(text)),
    }
}

/// A line: the name of its tables, a word, other words, and what is wanted of them.
#[derive(Clone, Copy)]
pub struct Line<'a> {
    pub tables: &'a str,
    pub word: &'a str,
    pub words: &'a str,
    pub want: &'a str,
}

/// The parts of a line, which has spaces behind its first two words and an arrow before what is wanted.
pub fn line_of(text: &str) -> Result<Line<'_>, Fail> {
    let (asked, want) = halves(text, " => ")?;
    let (tables, asked) = halves(asked, " ")?;
    let (word, words) = halves(asked, " ")?;
    Ok(Line {
        tables,
        word,
        words,
        want,
    })
}
