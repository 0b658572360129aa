//! A round's candidates and rows by their numbers.
ghost use Rattle.std.specs.Prelude.{◌≡◌, ◌<◌, Some, All, length};
ghost use Rattle.std.specs.List.{slice_get};
ghost use Rattle.std.specs.Option.{option_copied};
ghost use Rattle.merge_round.specs.Rounds.{rows_in};
ghost use Rattle.merge_round.specs.Seats.{round_of};
ghost use Rattle.merge_round.specs.inner.Entries.{IsEntry};

use crate::numbering::Entry;
use crate::round::MergeRound;
use geo_base::RowId;
use write_set::Changes;

impl<C: Changes> MergeRound<C> {
    /// The row with the number, counted from 0 in the order in which the candidates first have them.
    pub fn row(&self, number: u32) -> Option<&RowId>
        ensures { option_copied result ≡ slice_get (rows_in (round_of self.now).all) number }
    {
        self.rows.get_index(number as usize)
    }

    /// The row with the number, of which there is one.
    pub(crate) fn row_at(&self, number: u32) -> &RowId
        requires { number < length (rows_in (round_of self.now).all) }
        ensures { slice_get (rows_in (round_of self.now).all) number ≡ Some result.now }
    {
        self.rows.get_index(number as usize).unwrap()
    }

    /// How many candidates there are.
    pub(crate) fn count(&self) -> u32
        ensures { result ≡ length (round_of self.now).all }
    {
        self.entries.len() as u32
    }

    /// The candidate with the number.
    pub(crate) fn entry(&self, number: u32) -> &Entry
        requires { number < length (round_of self.now).all }
        ensures is { IsEntry (round_of self.now).all number result.now }
        ensures rows { All (λ row. row < length (rows_in (round_of self.now).all)) result.now.rows }
    {
        &self.entries[number as usize]
    }
}
