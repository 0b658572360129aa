//! A seat, which one thread works with.
ghost use Rattle.std.specs.Prelude.{◌≡◌, []};

use crate::view::ClaimView;
use atomic_table::Seat;

/// The right to draw pieces of one table. It has no bytes, and may cross threads.
#[derive(Drop)]
pub struct ClaimSeat {
    pub(crate) seat: Seat<(), ClaimView>,
    ghost bare: { seat.me.1 ≡ [] },
}
