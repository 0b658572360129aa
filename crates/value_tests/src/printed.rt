//! How cells and rows are written in texts.
use crate::words::{cell_of, cells_of};
use geo_base::{Printed, Txt, print_commas, print_row};
use std::alloc::Global;
use std::test::Fail;

/// What the cell of a word is written as behind a letter.
fn cell_text(alloc: Global, word: &str) -> Result<String, Fail> {
    let mut out = String::from_str(alloc, "x")?;
    cell_of(alloc, word)?.print_to(&mut out)?;
    Ok(out)
}

#[test]
fn cells_are_written(rt: HostRuntime) -> Result<(), Fail> {
    for (word, text) in [
        ("-", "xNULL"),
        ("0", "x0"),
        ("-7", "x-7"),
        ("9223372036854775807", "x9223372036854775807"),
        ("-9223372036854775808", "x-9223372036854775808"),
        ("'", "x''"),
        ("'ab", "x'ab'"),
        ("''", "x''''"),
        ("'o'né''", "x'o''né'''''"),
        ("no", "xFALSE"),
        ("yes", "xTRUE"),
    ] {
        let found = cell_text(rt.alloc(), word)?;
        assert_eq!(rt; found.as_str(), text, "{word}");
    }
    Ok(())
}

/// What the cells are written as with commas, and behind it what they are written as in a row.
fn row_texts(alloc: Global, words: &str) -> Result<String, Fail> {
    let cells = cells_of(alloc, words)?;
    let mut out = String::new(alloc);
    print_commas(&mut out, &cells)?;
    print_row(&mut out, &cells)?;
    Ok(out)
}

#[test]
fn rows_are_written(rt: HostRuntime) -> Result<(), Fail> {
    for (words, text) in [
        ("", "()"),
        ("1", "1(1)"),
        ("- 'a", "NULL, 'a'(NULL, 'a')"),
        (
            "1 - '', no yes",
            "1, NULL, ''',', FALSE, TRUE(1, NULL, ''',', FALSE, TRUE)",
        ),
    ] {
        let found = row_texts(rt.alloc(), words)?;
        assert_eq!(rt; found.as_str(), text, "{words}");
    }
    Ok(())
}

/// What the names are written as with commas.
fn names_text(alloc: Global, names: &str) -> Result<String, Fail> {
    let mut items = Vec::new(alloc);
    for name in names.split(' ') {
        items.push(Txt::new(alloc, name)?)?;
    }
    let mut out = String::new(alloc);
    print_commas(&mut out, &items)?;
    Ok(out)
}

#[test]
fn names_are_written_as_they_are(rt: HostRuntime) -> Result<(), Fail> {
    for (names, text) in [("a", "a"), ("acc o'né", "acc, o'né")] {
        let found = names_text(rt.alloc(), names)?;
        assert_eq!(rt; found.as_str(), text, "{names}");
    }
    Ok(())
}
