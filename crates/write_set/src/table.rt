//! Entries in rising order of their rows, searched by halving.
ghost use Rattle.std.specs.Prelude.{◌≡◌, ◌+◌, ◌<◌, ◌≤◌, IfOk, IfErr, vec_len};
ghost use Rattle.std.specs.Map.{lookup, remove_entry};
ghost use Rattle.std.specs.BTreeMap.{insert_entry, is_at};
ghost use Rattle.std.specs.Option.{option_copied};
ghost use Rattle.std.specs.Vec.{vec_capacity};
ghost use Rattle.geo_base.specs.Order.{row_cmp};
ghost use Rattle.write_set.specs.inner.Places.{StandsAt, FitsAt};
ghost use Rattle.write_set.specs.Sets.{Rises};

use geo_base::RowId;

/// The place of the row's entry, or the one where it would go.
fn place_of<X>(entries: &[(RowId, X)], row: &RowId) -> Result<usize, usize>
    requires { Rises entries.now }
    ensures found { IfOk result (StandsAt entries.now row.now) }
    ensures absent { IfErr result (FitsAt entries.now row.now) }
{
    entries.binary_search_by(|entry| entry.0.cmp(row))
}

/// What the row's entry holds, if there is one.
pub(crate) fn value_of<'a, X>(entries: &'a [(RowId, X)], row: &RowId) -> Option<&'a X>
    requires { Rises entries.now }
    ensures { option_copied result ≡ lookup (is_at (row_cmp row.now)) entries.now }
{
    match place_of(entries, row) {
        Ok(place) => Some(&entries[place].1),
        Err(_) => None,
    }
}

/// Puts the value at the row, where there is room for one more entry.
pub(crate) fn put_value<X: Drop>(entries: &mut Vec<(RowId, X)>, row: RowId, value: X)
    requires rising { Rises entries.old.items }
    requires room { vec_len entries.old < vec_capacity entries.old }
    ensures items { entries.new.items ≡ insert_entry row_cmp entries.old.items row value }
    ensures rising { Rises entries.new.items }
    ensures len { vec_len entries.new ≤ vec_len entries.old + 1 }
    ensures capacity { vec_capacity entries.old ≤ vec_capacity entries.new }
{
    match place_of(entries.as_slice(), &row) {
        Ok(place) => entries[place].1 = value,
        Err(place) => entries.insert(place, (row, value)).unwrap(),
    }
}

/// Takes the row's entry away, if there is one.
pub(crate) fn remove_value<X: Drop>(entries: &mut Vec<(RowId, X)>, row: &RowId)
    requires rising { Rises entries.old.items }
    ensures items { entries.new.items ≡ remove_entry (is_at (row_cmp row.now)) entries.old.items }
    ensures rising { Rises entries.new.items }
    ensures len { vec_len entries.new ≤ vec_len entries.old }
    ensures capacity { vec_capacity entries.new ≡ vec_capacity entries.old }
{
    if let Ok(place) = place_of(entries.as_slice(), row) {
        entries.remove(place);
    }
}
