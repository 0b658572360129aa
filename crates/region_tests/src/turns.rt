//! Epochs of one region and of two: candidates, seals, arrivals, rounds, publications and outcomes.
use crate::acting::play;
use std::test::Fail;

/// One region. Of three candidates of its first epoch the last is beaten by the first on one of its rows; of two of its
/// second one has a row that was changed after its start.
const ALONE: &str = "\
open numbers 0 1 4294967294 / /
stands => true published 0 open 1 with 0 horizon 0 life 0
round => Waiting { epoch: 1, have: 0 }
rows now => 0:
submit 0 #1 0 1 @1 @10 => ticket 1.0.0 of 0
submit 0 #1 0 1 @2 @20 => ticket 1.0.1 of 0
submit 0 #2 0 1 @1 @11 0 3 @3 => ticket 1.0.2 of 0
stands => true published 0 open 1 with 3 horizon 0 life 0
outcome 0 => not yet, published 0
seal => 1 with 3 in 108 bytes, kept
entry GGB2 0 #1 #3 #0 #1 0 1 @1 @10 #0 #1 0 1 @2 @20 #0 #2 0 1 @1 @11 0 3 @3 => true
stands => true published 0 open 2 with 0 horizon 0 life 0
round => 1 after 0: 1.0/3
outcome 2 => not yet, published 0
publish 1 => Published { epoch: 1, commits: 2, aborts: 1 }
stands => true published 1 open 2 with 0 horizon 0 life 0
outcome 0 => committed
outcome 1 => committed
outcome 2 => beaten 0(1) by 1.0.0
rows 0 => 0:
rows 1 => 1: (1, 10) (2, 20)
rows 2 => NotPublished(1)
rows now => 1: (1, 10) (2, 20)
submit 0 #1 0 1 @2 @21 => ticket 2.0.0 of 0
submit 1 #1 0 2 @1 => ticket 2.0.1 of 0
outcome 4 => not yet, published 1
seal => 2 with 2 in 60 bytes, kept
twice 2 => (Published { epoch: 2, commits: 1, aborts: 1 }, Already(2))
outcome 3 => changed 0(2) in 1
outcome 4 => committed
outcome 2 => beaten 0(1) by 1.0.0
rows 1 => 1: (1, 10) (2, 20)
rows now => 2: (2, 20)";

/// The first and the second of two regions, whose first batches have one row in common. The first one's candidate wins
/// at both, since the start and the number are the same.
const TWO: &str = "\
open numbers 0 2 4294967294 / /
submit 0 #1 0 1 @1 @10 => ticket 1.0.0 of 0
seal => 1 with 1 in 41 bytes, kept
round => Waiting { epoch: 1, have: 1 }
arrive 1 #1 #1 #0 #1 0 1 @1 @20 => Ok(New)
arrive 1 #1 #0 => Ok(Known)
round => 1 after 0: 1.0/1 1.1/1
publish 2 => Published { epoch: 1, commits: 1, aborts: 1 }
arrive 1 #1 #0 => Ok(Known)
outcome 0 => committed
rows now => 1: (1, 10)

open numbers 1 2 4294967294 / /
submit 0 #1 0 1 @1 @20 => ticket 1.1.0 of 0
arrive 0 #1 #1 #0 #1 0 1 @1 @10 => Ok(New)
arrive 0 #3 #0 => Ok(New)
round => Waiting { epoch: 1, have: 1 }
seal => 1 with 1 in 41 bytes, kept
entry GGB2 1 #1 #1 #0 #1 0 1 @1 @20 => true
round => 1 after 0: 1.0/1 1.1/1
publish 3 => Published { epoch: 1, commits: 1, aborts: 1 }
outcome 0 => beaten 0(1) by 1.0.0
rows now => 1: (1, 10)
round => Waiting { epoch: 2, have: 0 }
arrive 0 #2 #1 #1 #1 0 2 @1 => Ok(New)
seal => 2 with 0 in 13 bytes, kept
publish 8 => Published { epoch: 2, commits: 1, aborts: 0 }
rows now => 2:
rows 1 => 1: (1, 10)
arrive 0 #3 #1 #0 #1 0 3 @1 => Ok(Known)
seal => 3 with 0 in 13 bytes, kept
round => 3 after 2: 3.0/0 3.1/0";

/// Which candidate of an epoch wins a row: the one that started later; of equal starts the one with the smaller number,
/// whatever its region; and one that is beaten on another row beats all the same, though none of its rows change.
const WINNERS: &str = "\
open numbers 0 1 4294967294 / /
submit 0 #1 0 1 @1 @10 => ticket 1.0.0 of 0
turns 2 => 2
submit 1 #1 0 1 @1 @11 => ticket 3.0.0 of 0
submit 2 #1 0 1 @1 @12 => ticket 3.0.1 of 0
seal => 3 with 2 in 69 bytes, kept
publish 1 => Published { epoch: 3, commits: 1, aborts: 1 }
outcome 1 => beaten 0(1) by 3.0.1
outcome 2 => committed
rows now => 3: (1, 12)

open numbers 0 2 4294967294 / /
submit 0 #1 0 1 @9 @9 => ticket 1.0.0 of 0
submit 0 #1 0 1 @1 @10 => ticket 1.0.1 of 0
seal => 1 with 2 in 69 bytes, kept
arrive 1 #1 #1 #0 #1 0 1 @1 @20 => Ok(New)
publish 2 => Published { epoch: 1, commits: 2, aborts: 1 }
outcome 0 => committed
outcome 1 => beaten 0(1) by 1.1.0
rows now => 1: (1, 20) (9, 9)

open numbers 0 1 4294967294 / /
submit 0 #1 0 1 @1 @1 => ticket 1.0.0 of 0
submit 0 #2 0 1 @1 @2 0 1 @2 @2 => ticket 1.0.1 of 0
submit 0 #1 0 1 @2 @3 => ticket 1.0.2 of 0
seal => 1 with 3 in 117 bytes, kept
publish 4 => Published { epoch: 1, commits: 1, aborts: 2 }
outcome 0 => committed
outcome 1 => beaten 0(1) by 1.0.0
outcome 2 => beaten 0(2) by 1.0.1
rows now => 1: (1, 1)";

/// The second of three regions. A batch that comes twice counts once.
const THREE: &str = "\
open numbers 1 3 4294967294 / /
arrive 0 #1 #0 => Ok(New)
arrive 2 #1 #0 => Ok(New)
arrive 2 #1 #0 => Ok(Known)
round => Waiting { epoch: 1, have: 2 }
seal => 1 with 0 in 13 bytes, kept
round => 1 after 0: 1.0/0 1.1/0 1.2/0
publish 4 => Published { epoch: 1, commits: 0, aborts: 0 }";

#[test]
fn regions_take_their_turns(rt: HostRuntime) -> Result<(), Fail> {
    play(rt.alloc(), ALONE)?;
    play(rt.alloc(), TWO)?;
    play(rt.alloc(), WINNERS)?;
    play(rt.alloc(), THREE)
}
