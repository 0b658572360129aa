//! The order of cells, copies, the limits of values, and the words of claims.
use crate::words::cells_of;
use geo_base::{
    CandId, Claim, Duplicate, Key, KeyFault, Line, Outcome, RowId, RowImage, Txt, TxtFault, beats,
    copy_items, pack_claim, unpack_claim,
};
use std::alloc::Global;
use std::test::Fail;

/// NULL, two numbers, four texts and both truths, rising.
const RISING: &str = "- -2 1 ' 'Z 'a 'ab no yes";

#[test]
fn cells_rank_by_kind_and_then_by_value(rt: HostRuntime) -> Result<(), Fail> {
    let cells = cells_of(rt.alloc(), RISING)?;
    for (i, a) in cells.iter().enumerate() {
        for (j, b) in cells.iter().enumerate() {
            assert_eq!(rt; a.cmp(b), i.cmp(&j), "{a:?} and {b:?}");
        }
    }
    Ok(())
}

/// Whether copies of the cells are these.
fn cells_are_copied(alloc: Global, words: &str) -> Result<bool, Fail> {
    let cells = cells_of(alloc, words)?;
    let copies = copy_items(alloc, &cells)?;
    Ok(copies.as_slice() == cells.as_slice())
}

/// Whether a copy of the line of the cells has these.
fn line_is_copied(alloc: Global, words: &str) -> Result<bool, Fail> {
    let line = Line::new(cells_of(alloc, words)?)?;
    let cells = cells_of(alloc, words)?;
    Ok(line.copy(alloc)?.cells() == cells.as_slice())
}

/// Whether a copy of the row of the cells has these.
fn image_is_copied(alloc: Global, words: &str) -> Result<bool, Fail> {
    let image = RowImage::new(cells_of(alloc, words)?)?;
    let cells = cells_of(alloc, words)?;
    Ok(image.copy(alloc)?.cells() == cells.as_slice())
}

/// Whether a copy of the text has the same bytes.
fn text_is_copied(alloc: Global, text: &str) -> Result<bool, Fail> {
    Ok(Txt::new(alloc, text)?.copy(alloc)?.text() == text)
}

/// The row of table 3 with the key of the words.
fn row_of(alloc: Global, words: &str) -> Result<RowId, Fail> {
    let key = Key::new(cells_of(alloc, words)?)?;
    Ok(RowId { table: 3, key })
}

fn row_is_copied(alloc: Global, words: &str) -> Result<bool, Fail> {
    let row = row_of(alloc, words)?;
    Ok(row.copy(alloc)? == row)
}

fn outcome_is_copied(alloc: Global, outcome: Outcome) -> Result<bool, Fail> {
    Ok(outcome.copy(alloc)? == outcome)
}

fn outcomes_are_copied(alloc: Global, words: &str) -> Result<bool, Fail> {
    let winner = CandId {
        epoch: 5,
        region: 2,
        csn: 0,
    };
    let changed = Outcome::Changed(row_of(alloc, words)?, 4);
    let changed = outcome_is_copied(alloc, changed)?;
    let beaten = Outcome::Beaten(row_of(alloc, words)?, winner);
    let beaten = outcome_is_copied(alloc, beaten)?;
    Ok(changed && beaten && outcome_is_copied(alloc, Outcome::Committed)?)
}

#[test]
fn copies_equal_what_they_copy(rt: HostRuntime) -> Result<(), Fail> {
    let alloc = rt.alloc();
    let copied = [
        cells_are_copied(alloc, RISING)?,
        line_is_copied(alloc, RISING)?,
        image_is_copied(alloc, RISING)?,
        text_is_copied(alloc, "été")?,
        row_is_copied(alloc, "7 'été")?,
        outcomes_are_copied(alloc, "7 'été")?,
    ];
    assert_eq!(rt; copied, [true; 6]);
    Ok(())
}

fn key_fault(alloc: Global, words: &str) -> Result<Option<KeyFault>, Fail> {
    Ok(Key::new(cells_of(alloc, words)?).err())
}

#[test]
fn faults_of_keys(rt: HostRuntime) -> Result<(), Fail> {
    for (words, fault) in [
        ("", Some(KeyFault::WrongCount)),
        ("7 7 7 7 7", Some(KeyFault::WrongCount)),
        ("- - - - -", Some(KeyFault::WrongCount)),
        ("7 - 7 -", Some(KeyFault::Null(1))),
        ("- -", Some(KeyFault::Null(0))),
        ("7", None),
        ("7 7 7 7", None),
    ] {
        assert_eq!(rt; key_fault(rt.alloc(), words)?, fault, "{words}");
    }
    Ok(())
}

/// Whether so many cells are a row, and whether they are a line.
fn are_row_and_line(alloc: Global, count: usize) -> Result<(bool, bool), Fail> {
    let words = "- ".repeat(alloc, count)?;
    let row = RowImage::new(cells_of(alloc, &words)?).is_ok();
    let line = Line::new(cells_of(alloc, &words)?).is_ok();
    Ok((row, line))
}

#[test]
fn counts_of_rows_and_lines(rt: HostRuntime) -> Result<(), Fail> {
    for (count, are) in [
        (0, (false, false)),
        (1, (true, true)),
        (32, (true, true)),
        (33, (false, true)),
        (64, (false, true)),
        (65, (false, false)),
    ] {
        assert_eq!(rt; are_row_and_line(rt.alloc(), count)?, are, "{count}");
    }
    Ok(())
}

fn text_fault(alloc: Global, letter: &str, count: usize) -> Result<Option<TxtFault>, Fail> {
    let text = letter.repeat(alloc, count)?;
    Ok(Txt::new(alloc, &text).err())
}

#[test]
fn texts_have_at_most_1024_bytes(rt: HostRuntime) -> Result<(), Fail> {
    for (letter, count, fault) in [
        ("x", 1024, None),
        ("x", 1025, Some(TxtFault::TooLong)),
        ("é", 512, None),
        ("é", 513, Some(TxtFault::TooLong)),
    ] {
        assert_eq!(rt; text_fault(rt.alloc(), letter, count)?, fault, "{count}");
    }
    Ok(())
}

/// Words with what they claim: the start, the commit number and the region. Each wins over those before
/// it.
const CLAIMS: [(u64, (u32, u32, u8)); 5] = [
    (0x1_0000_0000, (0, 16_777_215, 255)),
    (0x1_ffff_feff, (0, 1, 0)),
    (0x1_ffff_ffff, (0, 0, 0)),
    (0x3_ffff_fefe, (2, 1, 1)),
    (0xffff_ffff_ffff_ffff, (4_294_967_294, 0, 0)),
];

fn claim_of((start, csn, region): (u32, u32, u8)) -> Claim {
    Claim { start, csn, region }
}

/// Whether the word is the claim's, both ways.
fn is_word_of(word: u64, claim: Claim) -> bool {
    claim.start < u32::MAX
        && claim.csn < 1 << 24
        && pack_claim(claim) == word
        && unpack_claim(word) == Some(claim)
}

#[test]
fn words_of_claims(rt: HostRuntime) {
    for (place, (word, claim)) in CLAIMS.iter().enumerate() {
        for (other_place, (other_word, other)) in CLAIMS.iter().enumerate() {
            let claim = claim_of(*claim);
            let wins = (beats(claim, claim_of(*other)), word > other_word);
            let expected = place > other_place;
            assert_eq!(rt;
                (is_word_of(*word, claim), wins),
                (true, (expected, expected))
            );
        }
    }
}

#[test]
fn words_that_are_no_claims(rt: HostRuntime) {
    let told = (unpack_claim(0), unpack_claim(0xffff_ffff));
    assert_eq!(rt; told, (None, None));
}
