//! The batches that have come to a region and aren't published yet, by epoch and region.
//!
//! An [`Inbox`] is seen as the list of the batches that it holds, by rising epochs and within an epoch by
//! rising regions, at most one of each region and epoch (`specs/Inbox.antt`). A batch that comes is new and
//! held from then on, or it is known already, or too far ahead; an epoch is whole exactly where the batch of
//! every region is held, however often batches came; and a whole epoch is lent or taken in the order of the
//! regions. Whoever may still fail with an epoch's batches has them lent, and lets the epoch go in the end,
//! which takes no memory. The only error is want of memory, which leaves the inbox as it was. What only looks
//! takes no memory but for the list of what is lent.
#![tactic(auto)]

mod arrival;
mod inbox;
mod laws;
mod taking;

pub use arrival::Arrival;
pub use inbox::Inbox;
pub use laws::{
    dropped_batches_are_gone, found_batches_are_of_their_places, held_batches_are_counted,
    put_batches_are_held, taken_epochs_are_gone, whole_epochs_are_in_order,
};
