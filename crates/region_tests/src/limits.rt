//! The limits of a region: how far it is ahead, its last epoch, the age of candidates and of what can be read, how far
//! batches come ahead, and how much a batch holds.
use crate::acting::play;
use std::test::Fail;

/// A region seals no more than eight epochs ahead of what it has published, none from its last one on, and takes batches
/// of others up to 64 epochs after what it has published. That a batch is known is tested before that it is too far.
const AHEAD: &str = "\
open numbers 0 2 4294967294 / /
can => Ok(())
seals 7 => 8
can => Ok(())
seal => 8 with 0 in 13 bytes, kept
can => Err(Ahead)
seal => Ahead
kept => 8
stands => true published 0 open 9 with 0 horizon 0 life 0
arrive 1 #1 #0 => Ok(New)
publish 1 => Published { epoch: 1, commits: 0, aborts: 0 }
seal => 9 with 0 in 13 bytes, kept
seal => Ahead
arrive 1 #66 #0 => Ok(Far(65))
arrive 1 #65 #0 => Ok(New)
arrive 1 #65 #0 => Ok(Known)
arrive 1 #1 #0 => Ok(Known)
arrive 1 #4294967293 #0 => Ok(Far(65))

open numbers 0 1 2 / /
can => Ok(())
seal => 1 with 0 in 13 bytes, kept
can => Err(LastEpoch)
submit 0 #1 0 3 @1 => ticket 2.0.0 of 0
seal => LastEpoch
stands => true published 0 open 2 with 1 horizon 0 life 0

open numbers 0 1 1 / /
seal => LastEpoch

open numbers 0 1 0 / /
can => Err(LastEpoch)";

/// A candidate may have started 64 epochs before its own, and an epoch can be read 64 epochs after it was published. What
/// the horizon leaves of a row that was removed is nothing, and then it isn't known that it was changed.
const OLD: &str = "\
open numbers 0 1 4294967294 / /
submit 0 #1 0 1 @1 @10 => ticket 1.0.0 of 0
turns 1 => 1
submit 1 #1 0 2 @1 => ticket 2.0.0 of 0
turns 1 => 2
turns 61 => 63
submit 0 #1 0 1 @1 @11 => ticket 64.0.0 of 0
turns 1 => 64
outcome 2 => changed 0(1) in 2
submit 0 #1 0 1 @1 @12 => TooOld { start: 0, open_epoch: 65 } 1
submit 1 #1 0 1 @1 @12 => ticket 65.0.0 of 0
rows 0 => 0:
rows 1 => 1: (1, 10)
rows 2 => 2:
stands => true published 64 open 65 with 1 horizon 0 life 0
turns 1 => 65
outcome 3 => changed 0(1) in 2
stands => true published 65 open 66 with 0 horizon 1 life 0
rows 0 => TooOld(1)
rows 1 => 1: (1, 10)
turns 1 => 66
rows 1 => TooOld(2)
rows 2 => 2:
rows 66 => 66:
rows 67 => NotPublished(66)
rows 18446744073709551615 => NotPublished(66)
submit 2 #2 0 3 @1 0 3 @2 => TooOld { start: 2, open_epoch: 67 } 2
submit 3 #1 0 1 @1 @13 => ticket 67.0.0 of 0
turns 1 => 67
outcome 4 => committed
rows now => 67: (1, 13)";

/// A batch has 4,096 candidates at most, and 4,194,304 bytes.
const FULL: &str = "\
open numbers 0 1 4294967294 / /
fill 4096 0 #1 0 3 @1 => 4096
submit 0 #1 0 3 @2 => BatchFull 1
stands => true published 0 open 1 with 4096 horizon 0 life 0
seal => 1 with 4096 in 77837 bytes, kept
submit 0 #1 0 3 @2 => ticket 2.0.0 of 0
publish 2 => Published { epoch: 1, commits: 1, aborts: 4095 }
outcome 1 => beaten 0(1) by 1.0.0
outcome 4095 => beaten 0(1) by 1.0.0
outcome 4096 => not yet, published 1

open texts 0 1 4294967294 / /
fill 3 0 %1024,1010 => 3
submit 0 %1024,966 => BatchFull 1024
submit 0 %1024,965 => ticket 1.0.3 of 0
submit 0 #1 0 3 @1 => BatchFull 1
seal => 1 with 4 in 4194304 bytes, kept
submit 0 #1 0 3 @1 => ticket 2.0.0 of 0";

#[test]
fn regions_keep_their_limits(rt: HostRuntime) -> Result<(), Fail> {
    play(rt.alloc(), AHEAD)?;
    play(rt.alloc(), OLD)?;
    play(rt.alloc(), FULL)
}
