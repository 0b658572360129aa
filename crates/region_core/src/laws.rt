//! What entries make of regions, what regions have to do with journals, and how long a round's outcomes serve, each the
//! contract of a function that does nothing.
ghost use Rattle.region_core.specs.Lawful.{StandsAfterEntry, StandsAfterHistory, EntryMakesRegion};
ghost use Rattle.region_core.specs.Journals.{OthersMaySeal, SealsStayJournals, PublishedStays, EntriesStay, StartsStay, NextOutcomesAreVerdicts};
ghost use Rattle.region_core.specs.Rounds.{RoundsGiveOutcomes, WholeEpochsStay, OutcomesStay};

/// A region stands lawfully after each entry that it accepts, and after each history of such entries.
pub fn entries_keep_standings()
    ensures entry { StandsAfterEntry }
    ensures history { StandsAfterHistory }
{}

/// What an entry that is accepted makes of a region is a region.
pub fn entries_make_regions()
    ensures { EntryMakesRegion }
{}

/// A region stays one of a journal's when the journal grows and, while the region is up, its own list doesn't change.
pub fn others_may_seal()
    ensures { OthersMaySeal }
{}

/// A journal with the batch that a region seals is a journal, and begins with the one before it.
pub fn seals_stay_journals()
    ensures { SealsStayJournals }
{}

/// A region stays one of a journal's at each entry that it accepts: of the same journal, or, where it seals, of the
/// journal with that batch. For what it has published it is enough that the batches which it publishes were sealed so.
pub fn entries_stay_in_journals()
    ensures published { PublishedStays }
    ensures region { EntriesStay }
{}

/// A region that starts on its list of a journal is one of the journal's.
pub fn starts_stay_in_journals()
    ensures { StartsStay }
{}

/// The outcomes by which a region publishes are the journal's verdicts.
pub fn next_outcomes_are_verdicts()
    ensures { NextOutcomesAreVerdicts }
{}

/// The round that a region gives, run to its end, gives outcomes by which the region publishes.
pub fn rounds_give_outcomes()
    ensures { RoundsGiveOutcomes }
{}

/// Once a region holds all batches of its next epoch, these and the outcomes of their candidates stay, while it
/// neither publishes nor crashes. Outcomes by which it publishes are such until it crashes.
pub fn outcomes_stay()
    ensures next { WholeEpochsStay }
    ensures judged { OutcomesStay }
{}
