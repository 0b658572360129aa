//! What an inbox holds after a batch came and after an epoch was taken, each the contract of a function that
//! does nothing.
ghost use Rattle.epoch_inbox.specs.Inbox.{FoundBatchesAreOfTheirPlaces, PutBatchesAreHeld, TakenEpochsAreGone, DroppedBatchesAreGone, WholeEpochsAreInOrder, HeldBatchesAreCounted};

/// The batch that is held of a region and an epoch is the region's, and of that epoch.
pub fn found_batches_are_of_their_places()
    ensures { FoundBatchesAreOfTheirPlaces }
{}

/// A batch that was put in is held, and of each other region or epoch what was held before.
pub fn put_batches_are_held()
    ensures { PutBatchesAreHeld }
{}

/// Of an epoch that was taken nothing is held, and of each other epoch what was held before.
pub fn taken_epochs_are_gone()
    ensures { TakenEpochsAreGone }
{}

/// A batch that is put in and let go again leaves what was held, where nothing was held at its place.
pub fn dropped_batches_are_gone()
    ensures { DroppedBatchesAreGone }
{}

/// The batches of a whole epoch are one of each region, in the order of the regions.
pub fn whole_epochs_are_in_order()
    ensures { WholeEpochsAreInOrder }
{}

/// As many batches of an epoch are held as there are regions of which one is held, and these are all regions
/// exactly where the epoch is whole.
pub fn held_batches_are_counted()
    ensures { HeldBatchesAreCounted }
{}
