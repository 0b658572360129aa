//! What entries and logs have to do with each other, each the contract of a function that does nothing.
ghost use Rattle.std.specs.Prelude.{◌≡◌};
ghost use Rattle.geo_base.specs.declared.limits.TheConstants.{MAX_BATCH_BYTES};
ghost use Rattle.geo_io.specs.declared.limits.TheConstants.{MAX_ENTRY_BYTES};
ghost use Rattle.own_log.specs.Logs.{OneLogOrFault, AppendedEntriesAreRead, EntriesSpellTheirPlaces, BatchesAreOfTheirPlaces};

/// Entries spell one log of a region, or they have one first bad entry with one fault, and not both.
pub fn entries_have_one_answer()
    ensures { OneLogOrFault }
{}

/// Entries that spell a log spell, with the entry of the next batch behind them, the log with that batch.
pub fn appended_entries_are_read()
    ensures { AppendedEntriesAreRead }
{}

/// Entries that spell a log are as many as its batches, and at each place the entry spells the batch.
pub fn entries_spell_their_places()
    ensures { EntriesSpellTheirPlaces }
{}

/// Each batch of what may be a log is, at its place, a lawful batch of the region and of the epoch that is one
/// greater than the place: what a journal asks of it.
pub fn batches_are_of_their_places()
    ensures { BatchesAreOfTheirPlaces }
{}

/// The limit of an entry in the files of a folder is that of a batch.
pub fn entries_have_the_limit_of_batches()
    ensures { MAX_ENTRY_BYTES ≡ MAX_BATCH_BYTES }
{}
