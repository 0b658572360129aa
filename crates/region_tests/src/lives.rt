//! Lives of a region: what a crash loses, what a restart reads, and what comes of keepers that fail.
use crate::acting::play;
use std::test::Fail;

/// A crash loses all but the log: open candidates, batches of other regions, versions and outcomes. While the region is
/// down it refuses all calls, and after a restart it has published nothing and holds its own batches.
const CRASHED: &str = "\
open numbers 0 2 4294967294 / /
submit 0 #1 0 1 @1 @10 => ticket 1.0.0 of 0
seal => 1 with 1 in 41 bytes, kept
submit 0 #1 0 1 @2 @20 => ticket 2.0.0 of 0
arrive 1 #1 #0 => Ok(New)
publish 1 => Published { epoch: 1, commits: 1, aborts: 0 }
outcome 0 => committed
arrive 1 #2 #0 => Ok(New)
crash => false published 0 open 2 with 0 horizon 0 life 1
crash => false published 0 open 2 with 0 horizon 0 life 1
outcome 0 => gone
outcome 1 => gone
rows now => Down
rows 0 => Down
rows 9 => Down
submit 0 #1 0 1 @2 @20 => Down 1
can => Err(Down)
seal => Down
arrive 1 #2 #0 => Err(Down)
fetch 1 => Down
fetch 9 => Down
round => Down
kept => 1
restart => Ok(1)
stands => true published 0 open 2 with 0 horizon 0 life 1
outcome 0 => gone
rows now => 0:
round => Waiting { epoch: 1, have: 1 }
arrive 1 #1 #0 => Ok(New)
arrive 1 #2 #0 => Ok(New)
publish 1 => Published { epoch: 1, commits: 1, aborts: 0 }
rows now => 1: (1, 10)
round => Waiting { epoch: 2, have: 1 }
submit 1 #1 0 1 @2 @21 => ticket 2.0.0 of 1
outcome 2 => not yet, published 1
seal => 2 with 1 in 41 bytes, kept
fetch 1 GGB2 0 #1 #1 #0 #1 0 1 @1 @10 => true
fetch 2 GGB2 0 #2 #1 #1 #1 0 1 @2 @21 => true
fetch 2 GGB2 0 #2 #1 #1 #1 0 1 @2 @20 => false
fetch 3 => none
fetch 0 => none
fetch 4294967295 => none
late 1 => Err(Down)
stands => false published 0 open 3 with 0 horizon 0 life 2
log => 2: 1.0/1 2.0/1
stands => true published 0 open 3 with 0 horizon 0 life 2";

/// A region that is opened on a log holds its batches, and gives old entries as they stand in it.
const OPENED: &str = "\
open numbers 0 2 4294967294 / GGB1 0 #1 #1 #0 #1 0 1 @1 @10, GGB2 0 #2 #1 #1 #1 0 3 @1 /
stands => true published 0 open 3 with 0 horizon 0 life 0
fetch 1 GGB1 0 #1 #1 #0 #1 0 1 @1 @10 => true
fetch 2 GGB2 0 #2 #1 #1 #1 0 3 @1 => true
fetch 3 => none
arrive 1 #1 #0 => Ok(New)
publish 1 => Published { epoch: 1, commits: 1, aborts: 0 }
arrive 1 #2 #1 #1 #1 0 1 @1 @20 => Ok(New)
round => 2 after 1: 2.0/1 2.1/1
publish 1 => Published { epoch: 2, commits: 1, aborts: 1 }
rows now => 2: (1, 10)
seal => 3 with 0 in 13 bytes, kept
fetch 3 GGB2 0 #3 #0 => true";

/// The keepers' calls fail one after another: an append that doesn't keep its entry and one that does, the calls of a
/// restart, and the read of an entry. After an append that failed the region is down, and starts on what the keepers have.
const FAILING: &str = "\
open numbers 0 2 4294967294 / / 1
submit 0 #1 0 1 @1 @10 => ticket 1.0.0 of 0
seal => LogFault
stands => false published 0 open 1 with 0 horizon 0 life 1
kept => 0
outcome 0 => gone
restart => Ok(0)
round => Waiting { epoch: 1, have: 0 }
seal => 1 with 0 in 13 bytes, kept
round => Waiting { epoch: 1, have: 1 }

open numbers 0 2 4294967294 / / 1+ 3 4 7
submit 0 #1 0 1 @1 @10 => ticket 1.0.0 of 0
seal => LogFault
kept => 1
stands => false published 0 open 1 with 0 horizon 0 life 1
outcome 0 => gone
restart => Err(LogFault)
stands => false published 0 open 1 with 0 horizon 0 life 1
log => LogFault
stands => false published 0 open 1 with 0 horizon 0 life 1
log => 1: 1.0/1
stands => true published 0 open 2 with 0 horizon 0 life 1
fetch 0 => none
fetch 2 => none
fetch 1 => LogFault
stands => true published 0 open 2 with 0 horizon 0 life 1
fetch 1 GGB2 0 #1 #1 #0 #1 0 1 @1 @10 => true
round => Waiting { epoch: 1, have: 1 }
arrive 1 #1 #0 => Ok(New)
publish 1 => Published { epoch: 1, commits: 1, aborts: 0 }";

/// After 65 epochs of two regions the first one crashes. It holds its own 65 batches again, and has published none of
/// them: so it seals no more, and of the other region's batches it takes those of the first 64 epochs.
const LONG: &str = "\
open numbers 0 2 4294967294 / /
both 65 => 65
crash => false published 0 open 66 with 0 horizon 0 life 1
arrive 1 #65 #0 => Err(Down)
restart => Ok(65)
stands => true published 0 open 66 with 0 horizon 0 life 1
arrive 1 #64 #0 => Ok(New)
arrive 1 #65 #0 => Ok(Far(64))
seal => Ahead
kept => 65
fetch 65 GGB2 0 #65 #0 => true
fetch 66 => none";

#[test]
fn regions_live_on_by_their_logs(rt: HostRuntime) -> Result<(), Fail> {
    play(rt.alloc(), LONG)?;
    play(rt.alloc(), CRASHED)?;
    play(rt.alloc(), OPENED)?;
    play(rt.alloc(), FAILING)
}
