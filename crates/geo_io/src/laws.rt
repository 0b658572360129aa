//! What lists of entries have to do with each other, as the contract of a function that does nothing.
ghost use Rattle.geo_io.specs.Told.{AppendedEntriesStandAtTheEnd};

/// An entry that a region's list gets stands at its end, behind what was there. The lists of the other regions
/// and the number of lists stay.
pub fn appended_entries_stand_at_the_end()
    ensures { AppendedEntriesStandAtTheEnd }
{}
