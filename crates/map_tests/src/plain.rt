//! A plain table: what stands at each key below its length.
use crate::number::Number;
use geo_base::NoMemory;
use page_map::PageMap;

/// Keys of a table.
pub(crate) const KEYS: usize = 211;

pub(crate) type Table = [Option<u64>; KEYS];

/// Whether the map has the pairs of the table, by their keys and at their places, and no others.
pub(crate) fn agrees(map: &PageMap<Number, Number>, table: &[Option<u64>]) -> bool {
    let mut place = 0u64;
    for key in 0..table.len() {
        let number = Number(key as u64);
        if map.place_of(&number) != place {
            return false;
        }
        match table[key] {
            Some(value) => {
                if map.get(&number) != Some(&Number(value)) {
                    return false;
                }
                if map.at(place) != Some((&number, &Number(value))) {
                    return false;
                }
                place = place.saturating_add(1);
            }
            None => {
                if map.get(&number).is_some() {
                    return false;
                }
            }
        }
    }
    map.at(place).is_none()
}

/// Puts the value at the key in both, or takes the key out of both, and says whether both had the same there.
fn change(
    map: &mut PageMap<Number, Number>,
    table: &mut [Option<u64>],
    key: usize,
    value: Option<u64>,
) -> Result<bool, NoMemory> {
    if key >= table.len() {
        return Ok(false);
    }
    let number = Number(key as u64);
    let old = match value {
        Some(value) => map.set(number, Number(value))?,
        None => map.take(&number)?,
    };
    let had = table[key];
    table[key] = value;
    match old {
        Some(old) => Ok(had == Some(old.0)),
        None => Ok(had.is_none()),
    }
}

/// Plays so many steps in both, of which each third takes a key out, and says whether both told the same.
pub(crate) fn play(
    map: &mut PageMap<Number, Number>,
    table: &mut [Option<u64>],
    first: usize,
    steps: usize,
) -> Result<bool, NoMemory> {
    for step in 0..steps {
        let turn = first.saturating_add(step) % 1_000_000;
        let key = turn * 97 % KEYS;
        let same = if turn % 3 == 2 {
            change(map, table, key / 2, None)?
        } else {
            change(map, table, key, Some(turn as u64))?
        };
        if !same {
            return Ok(false);
        }
    }
    Ok(true)
}
