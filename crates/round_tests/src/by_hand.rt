//! Small rounds, worked by hand.
use crate::playing::first_wrong;
use std::test::Fail;

/// Who wins: by start, commit number and region; against a candidate that itself loses another row; a put and a
/// touch; and what comes of a round that ends without a seat's verdicts.
const JUDGED: &str = "\
1 0 / 0+1 / 0+1 / AbaaAB / ab => \
not yet 0; made 0; made 1; spent; 0 committed; 1 beaten 0 by 1.0.0; \
0(1); 1: committed; beaten 0(1) by 1.0.0;
1 0 / 0+1 / 0+1 / AbaaAB / a => \
not yet 0; made 0; made 1; spent; 0 committed; 1 beaten 0 by 1.0.0; 0(1); unjudged 1
1 0 / 0+1 0+1+2 0+2 / none / aaaAAA / ab => \
made 0; made 1; made 2; 0 committed; 1 beaten 0 by 1.0.0; 2 beaten 1 by 1.0.1; \
0(1); 0(2); 1: committed; beaten 0(1) by 1.0.0; beaten 0(2) by 1.0.1;
1 0 / 0+9 0+1 / 0+1 / bbbBBB / ab => \
made 0; made 1; made 2; 0 committed; 1 beaten 1 by 1.1.0; 2 committed; \
0(9); 0(1); 1: committed; beaten 0(1) by 1.1.0; committed;
3 0 / 1+4 2+4 / none / aaAA / ab => \
made 0; made 1; 0 beaten 0 by 3.0.1; 1 committed; 0(4); 3: beaten 0(4) by 3.0.1; committed;
1 0 / 0~1 0+1 0+2 0~2 / none / aaaaAAAA / ab => \
made 0; made 1; made 2; made 3; 0 committed; 1 beaten 0 by 1.0.0; 2 committed; 3 beaten 1 by 1.0.2; \
0(1); 0(2); 1: committed; beaten 0(1) by 1.0.0; committed; beaten 0(2) by 1.0.2;
3 2 / 1~9 2~9 / none / aaAA / ab => \
made 0; made 1; 0 changed 0 in 2; 1 committed; 0(9); 3: changed 0(9) in 2; committed;
3 2 / 2+5 1+9 / 2+1+5 2~7 2~7 / AbaBbabaabABABABBA / ab => \
not yet 0; made 0; made 1; not yet 2; made 2; made 3; made 4; spent; spent; spent; \
0 committed; 1 changed 1 in 2; 2 beaten 0 by 3.0.0; 3 committed; 4 beaten 3 by 3.1.1; \
spent; spent; spent; 0(5); 0(9); 0(1); 0(7); \
3: committed; changed 0(9) in 2; beaten 0(5) by 3.0.0; committed; beaten 0(7) by 3.1.1;
3 2 / 2+5 1+9 / 2+1+5 2~7 2~7 / aaaaaABABA / a => \
made 0; made 1; made 2; made 3; made 4; \
0 committed; 1 changed 1 in 2; 2 beaten 0 by 3.0.0; 3 committed; 4 beaten 3 by 3.1.1; \
0(5); 0(9); 0(1); 0(7); unjudged 1";

#[test]
fn rounds_are_judged(rt: HostRuntime) -> Result<(), Fail> {
    assert_eq!(rt; first_wrong(rt.alloc(), JUDGED)?, None);
    Ok(())
}

/// Making a round asks for no last change, and a seat for its candidate's rows alone, each at most once. The
/// third candidate of the first round and the second of the second lack a row of those that they lose to or
/// that aren't fresh: to judge them by comparing them with the others would ask for that row too.
const ASKED: &str = "\
3 2 / 1+1+9 1+1+9 1+1 / none / ?a19?a19?a1?A19?A19?B1? / ab => \
0 more; made 0; 0 more; made 1; 0 more; made 2; 0 more; \
0 changed 1 in 2; 0 more; 1 changed 1 in 2; 0 more; 2 committed; 0 more; \
0(1); 0(9); 3: changed 0(9) in 2; changed 0(9) in 2; committed;
1 0 / 0+1+2+3 0+2+5 / none / ?a123?b25?A123?B25? / ab => \
0 more; made 0; 0 more; made 1; 0 more; 0 committed; 0 more; 1 beaten 1 by 1.0.0; 0 more; \
0(1); 0(2); 0(3); 0(5); 1: committed; beaten 0(2) by 1.0.0;";

#[test]
fn a_judgement_asks_for_its_own_rows(rt: HostRuntime) -> Result<(), Fail> {
    assert_eq!(rt; first_wrong(rt.alloc(), ASKED)?, None);
    Ok(())
}

/// One thread ends a round with all of its seats: of one, two and eight that have done nothing, of two that have
/// claimed for some or for all candidates, and of two for which nothing is left.
const ENDED: &str = "\
1 0 /  / none /  / 1 => 1:
1 0 / 0+1 / 0+1 /  / 1 => 0(1); 1: committed; beaten 0(1) by 1.0.0;
1 0 / 0+1 0+1+2 0+2 / none /  / 2 => \
0(1); 0(2); 1: committed; beaten 0(1) by 1.0.0; beaten 0(2) by 1.0.1;
3 2 / 2+5 1+9 / 2+1+5 2~7 2~7 /  / 8 => \
0(5); 0(9); 0(1); 0(7); \
3: committed; changed 0(9) in 2; beaten 0(5) by 3.0.0; committed; beaten 0(7) by 3.1.1;
1 0 / 0+1 0+1+2 0+2 / none / ba / 2 => \
made 0; made 1; 0(1); 0(2); 1: committed; beaten 0(1) by 1.0.0; beaten 0(2) by 1.0.1;
1 0 / 0+1 / 0+1 / aabB / 2 => \
made 0; made 1; spent; 0 committed; 0(1); 1: committed; beaten 0(1) by 1.0.0;
1 0 / 0+1 / 0+1 / abABbA / 2 => \
made 0; made 1; 0 committed; 1 beaten 0 by 1.0.0; spent; spent; \
0(1); 1: committed; beaten 0(1) by 1.0.0;";

#[test]
fn rounds_are_ended_by_one_thread(rt: HostRuntime) -> Result<(), Fail> {
    assert_eq!(rt; first_wrong(rt.alloc(), ENDED)?, None);
    Ok(())
}
