//! Maps whose values are their keys: the keys below a number, put in and taken out.
use crate::number::Number;
use geo_base::NoMemory;
use page_map::PageMap;

/// Puts in the keys below the count, each with its own number as its value, rising or falling.
pub(crate) fn fill(
    map: &mut PageMap<Number, Number>,
    count: u64,
    falling: bool,
) -> Result<(), NoMemory> {
    for step in 0..count {
        let key = if falling { count - 1 - step } else { step };
        map.set(Number(key), Number(key))?;
    }
    Ok(())
}

/// Whether the keys below the count, and no others, stand at their places with their own numbers. Looks at all
/// keys of up to 10,000, and at 10,000 of more.
pub(crate) fn counts(map: &PageMap<Number, Number>, count: u64) -> bool {
    if count == 0 {
        return map.at(0).is_none();
    }
    for step in 0..10_000u64 {
        let key = step * 997 % count;
        let number = Number(key);
        if map.at(key) != Some((&number, &number)) {
            return false;
        }
        if map.get(&number) != Some(&number) || map.place_of(&number) != key {
            return false;
        }
    }
    map.at(count).is_none() && map.place_of(&Number(u64::MAX)) == count
}

/// Takes all keys below the count out, in leaps of seven, and says whether each had its own number. The count is
/// below a million and no multiple of seven.
pub(crate) fn take_all(map: &mut PageMap<Number, Number>, count: u64) -> Result<bool, NoMemory> {
    for step in 0..count {
        let key = step % 1_000_000 * 7 % count;
        if map.take(&Number(key))? != Some(Number(key)) {
            return Ok(false);
        }
    }
    Ok(map.at(0).is_none())
}
