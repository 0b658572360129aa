//! Net write sets, worked by hand from the rule of the net.
use crate::changes::{
    add_change, applied_words, apply_changes, row_changes_of, row_of, with_changes, with_word,
    with_words,
};
use geo_base::{Cell, Duplicate, RowImage, Txt};
use std::alloc::Global;
use std::test::Fail;
use write_set::{Change, Record, RowChange, SetFault, WriteSet};

/// The changes at the places from 0 on, and `; end` where there is none.
fn text_by_places(alloc: Global, set: &WriteSet) -> Result<String, Fail> {
    let mut out = String::new(alloc);
    for place in 0..=set.count() {
        match set.at(place) {
            Some((row, change)) => add_change(&mut out, row, change)?,
            None => out.push_str("; end")?,
        }
    }
    Ok(out)
}

/// The changes of the rows from 0 to 9, and `; end` behind them.
fn text_by_rows(alloc: Global, set: &WriteSet) -> Result<String, Fail> {
    let mut out = String::new(alloc);
    for key in 0..10 {
        let row = row_of(alloc, key)?;
        if let Some(change) = set.get(&row) {
            add_change(&mut out, &row, change)?;
        }
    }
    out.push_str("; end")?;
    Ok(out)
}

/// Whether the set says this, by its places and by its rows.
fn says(alloc: Global, set: &WriteSet, text: &str) -> Result<bool, Fail> {
    let places = text_by_places(alloc, set)?;
    let rows = text_by_rows(alloc, set)?;
    Ok(places.as_str() == text && rows.as_str() == text)
}

/// The net of the changes of a set and of those after them.
fn net_of(alloc: Global, set: &str, changes: &str) -> Result<WriteSet, Fail> {
    let set = with_words(alloc, &WriteSet::empty(alloc), set)?;
    with_words(alloc, &set, changes)
}

/// The same, with all changes made in one set.
fn net_in_place(alloc: Global, set: &str, changes: &str) -> Result<WriteSet, Fail> {
    let set = applied_words(alloc, WriteSet::empty(alloc), set)?;
    applied_words(alloc, set, changes)
}

/// Whether the net says this and has this size, made in a copy and made in place.
fn is_net(
    alloc: Global,
    (set, changes, text, size): (&str, &str, &str, u64),
) -> Result<bool, Fail> {
    let net = net_of(alloc, set, changes)?;
    let in_place = net_in_place(alloc, set, changes)?;
    let sizes = (net.size(), in_place.size());
    Ok(sizes == (size, size) && says(alloc, &net, text)? && says(alloc, &in_place, text)?)
}

/// Changes of a set, those after them, and what is left, with its size. `+` stands before a row that the
/// snapshot lacks.
const NETS: [(&str, &str, &str, u64); 9] = [
    // No change.
    ("", "", "; end", 0),
    // Put over put.
    ("", "+1=10 +1=11", "; 0(1) -> (1, 11); end", 20),
    // Put and then removed, of a row that the snapshot has, and of one that it lacks.
    ("", "1=10 +2=20 1 +2", "; 0(1) removed; end", 11),
    // Removed and then put.
    ("", "1 1=12 +2", "; 0(1) -> (1, 12); end", 20),
    // Put by the set, and removed behind it, of a row that the snapshot lacks.
    ("+1=10", "+1", "; end", 0),
    // Touched.
    ("", "@1 @2", "; 0(1) touched; 0(2) touched; end", 22),
    // Rows that the set has are touched.
    (
        "1=10 2 @3",
        "@1 @2 @3",
        "; 0(1) -> (1, 10); 0(2) removed; 0(3) touched; end",
        42,
    ),
    // Touched, and then put or removed.
    (
        "@1 @2",
        "1=10 2",
        "; 0(1) -> (1, 10); 0(2) removed; end",
        31,
    ),
    // A row of the set is removed, another one is put again, and new ones stand between and behind them.
    (
        "5=50 +1=10 3",
        "9 +1 5=51 +4=40",
        "; 0(3) removed; 0(4) -> (4, 40); 0(5) -> (5, 51); 0(9) removed; end",
        62,
    ),
];

#[test]
fn the_last_change_of_a_row_stands(rt: HostRuntime) -> Result<(), Fail> {
    for net in NETS {
        assert!(rt; is_net(rt.alloc(), net)?, "{net:?}");
    }
    Ok(())
}

/// Changes of a set, one touch behind them of a row that the set has, and what is left, with its size.
const TOUCHES: [(&str, &str, &str, u64); 3] = [
    // A row that the snapshot lacks, and that the set puts.
    ("+1=10", "+@1", "; 0(1) -> (1, 10); end", 20),
    ("1", "@1", "; 0(1) removed; end", 11),
    ("@1", "@1", "; 0(1) touched; end", 11),
];

fn is_touched(
    alloc: Global,
    (set, touch, text, size): (&str, &str, &str, u64),
) -> Result<bool, Fail> {
    let set = with_words(alloc, &WriteSet::empty(alloc), set)?;
    let net = with_word(alloc, &set, touch)?;
    Ok(net.size() == size && says(alloc, &net, text)?)
}

#[test]
fn a_touch_of_a_row_of_the_set_leaves_it(rt: HostRuntime) -> Result<(), Fail> {
    for touch in TOUCHES {
        assert!(rt; is_touched(rt.alloc(), touch)?, "{touch:?}");
    }
    Ok(())
}

/// A put of the row, which the snapshot lacks, with so many letters.
fn put_of(alloc: Global, key: i64, letters: usize) -> Result<RowChange, Fail> {
    let text = Txt::new(alloc, &"x".repeat(alloc, letters)?)?;
    let image = RowImage::new(vec![in alloc; Cell::Int(key), Cell::Text(text)]?)?;
    Ok(RowChange {
        row: row_of(alloc, key)?,
        before: false,
        change: Change::Put(image),
    })
}

/// Puts of so many rows, of 1,024 bytes each, but for the first, which has so many letters.
fn puts_of(alloc: Global, rows: i64, first: usize) -> Result<Vec<RowChange>, Fail> {
    let mut changes = Vec::new(alloc);
    changes.push(put_of(alloc, 0, first)?)?;
    for key in 1..rows {
        changes.push(put_of(alloc, key, 1010)?)?;
    }
    Ok(changes)
}

/// What the puts and the changes behind them are told.
fn told(alloc: Global, rows: i64, first: usize, behind: &str) -> Result<Option<SetFault>, Fail> {
    let mut changes = puts_of(alloc, rows, first)?;
    for change in row_changes_of(alloc, behind)? {
        changes.push(change)?;
    }
    match with_changes(alloc, &WriteSet::empty(alloc), changes) {
        Some(net) => Ok(net.err()),
        None => Err("a touch of an unknown row".into()),
    }
}

/// What the puts and the changes behind them are told, made in the set of these words, and how many rows and
/// bytes the set has then.
fn told_in_place(
    alloc: Global,
    set: &str,
    (rows, first, behind): (i64, usize, &str),
) -> Result<(Option<SetFault>, u32, u64), Fail> {
    let mut set = applied_words(alloc, WriteSet::empty(alloc), set)?;
    let mut changes = puts_of(alloc, rows, first)?;
    for change in row_changes_of(alloc, behind)? {
        changes.push(change)?;
    }
    match apply_changes(alloc, &mut set, changes) {
        Some(told) => Ok((told.err(), set.count(), set.size())),
        None => Err("a touch of an unknown row".into()),
    }
}

/// A touch has 11 bytes, and 1,023 changes of 1,024 bytes have 1,047,552. Refused changes leave the set.
#[test]
fn the_limits_are_tested_in_place(rt: HostRuntime) -> Result<(), Fail> {
    for (set, puts, told) in [
        ("", (1024, 1010, ""), (None, 1024, 1_048_576)),
        ("", (1024, 1011, ""), (Some(SetFault::TooLarge), 0, 0)),
        ("", (1025, 1010, ""), (Some(SetFault::TooManyRows), 0, 0)),
        ("", (1025, 1011, ""), (Some(SetFault::TooManyRows), 0, 0)),
        ("", (1025, 1010, "+0"), (None, 1024, 1_048_576)),
        ("", (1025, 1011, "+0"), (None, 1024, 1_048_576)),
        ("@2000", (1023, 1010, ""), (None, 1024, 1_047_563)),
        (
            "@2000",
            (1024, 1010, ""),
            (Some(SetFault::TooManyRows), 1, 11),
        ),
        ("@0", (1024, 1011, ""), (Some(SetFault::TooLarge), 1, 11)),
    ] {
        let is = told_in_place(rt.alloc(), set, puts)?;
        assert_eq!(rt; is, told, "{set} {puts:?}");
    }
    Ok(())
}

/// The set that is left by so many calls, of which each puts one more row, with 1,024 bytes.
fn grown(alloc: Global, rows: i64) -> Result<WriteSet, Fail> {
    let mut set = WriteSet::empty(alloc);
    for key in 0..rows {
        let changes = vec![in alloc; put_of(alloc, key, 1010)?]?;
        let told = apply_changes(alloc, &mut set, changes).ok_or("a touch of an unknown row")?;
        told?;
    }
    Ok(set)
}

#[test]
fn a_set_grows_by_a_row_a_call(rt: HostRuntime) -> Result<(), Fail> {
    let set = grown(rt.alloc(), 1024)?;
    assert_eq!(rt; (set.count(), set.size()), (1024, 1_048_576));
    Ok(())
}

/// A change of 1,024 bytes has a text of 1,010 of them behind its table, its kind, its key of 9 bytes, and
/// the tag and the length of the text: 1,024 such changes have 1,048,576 bytes.
#[test]
fn the_limits_are_tested_at_the_end(rt: HostRuntime) -> Result<(), Fail> {
    for (rows, first, behind, fault) in [
        (1024, 1010, "", None),
        (1024, 1011, "", Some(SetFault::TooLarge)),
        (1025, 1010, "", Some(SetFault::TooManyRows)),
        (1025, 1011, "", Some(SetFault::TooManyRows)),
        (1025, 1010, "+0", None),
        (1025, 1011, "+0", None),
    ] {
        let told = told(rt.alloc(), rows, first, behind)?;
        assert_eq!(rt; told, fault, "{rows} {first} {behind}");
    }
    Ok(())
}

/// Whether a copy of a record of these changes has the record's numbers, and says this.
fn is_copied(alloc: Global, changes: &str, text: &str) -> Result<bool, Fail> {
    let record = Record {
        session: 2,
        first: 7,
        last: 9,
        start: 4,
        set: net_of(alloc, changes, "")?,
    };
    let copy = record.copy(alloc)?;
    let numbers = (copy.session, copy.first, copy.last, copy.start);
    Ok(numbers == (2, 7, 9, 4) && says(alloc, &copy.set, text)?)
}

#[test]
fn a_record_is_copied(rt: HostRuntime) -> Result<(), Fail> {
    assert!(rt; is_copied(rt.alloc(), "1 2=20", "; 0(1) removed; 0(2) -> (2, 20); end")?);
    Ok(())
}
