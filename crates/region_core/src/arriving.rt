//! A batch of another region that comes.
ghost use Rattle.region_core.specs.Lawful.{IsFromAnother};
ghost use Rattle.region_core.specs.Calls.{Arrives};

use crate::fault::BeginFault;
use crate::region::Region;
use epoch_inbox::Arrival;
use write_set::Batch;

impl Region {
    /// Takes a batch of another region in: a new one is held until its epoch is published; one that is known, or more
    /// than 64 epochs past the published one, is let go and takes no memory. Costs two searches by halving.
    pub fn arrive(&mut self, batch: Batch) -> Result<Arrival, BeginFault>
        requires { IsFromAnother self.old.standing batch }
        ensures { Arrives batch self.old result self.new }
    {
        if !self.up {
            return Err(BeginFault::Down);
        }
        let published = self.published();
        Ok(self.inbox.put(published, batch)?)
    }
}
