//! Batches that come to an inbox for three regions.
ghost use Rattle.std.specs.Prelude.{◌≡◌, ◌<◌, IfOk};

use epoch_inbox::{Arrival, Inbox};
use geo_base::{Epoch, RegionNo};
use std::alloc::Global;
use std::fmt::Write;
use std::test::Fail;
use write_set::{Batch, Candidate, CandidateList, WriteSet};

/// A batch without candidates comes.
fn put(
    alloc: Global,
    inbox: &mut Inbox,
    published: Epoch,
    epoch: Epoch,
    region: RegionNo,
) -> Result<Arrival, Fail>
    requires { region < inbox.old.regions }
    ensures { inbox.new.regions ≡ inbox.old.regions }
{
    let batch = Batch {
        region,
        epoch,
        items: CandidateList::new(Vec::new(alloc)),
    };
    Ok(inbox.put(published, batch)?)
}

/// What becomes of the batch of the words, which are the published epoch, the batch's epoch and its region,
/// and what of its epoch is held then: how many batches, and whether that is all.
fn told(alloc: Global, inbox: &mut Inbox, words: &str) -> Result<String, Fail>
    requires { inbox.old.regions ≡ 3 }
    ensures { inbox.new.regions ≡ 3 }
{
    let (published, place) = words.split_once(' ').ok_or("no epoch")?;
    let (epoch, region) = place.split_once(' ').ok_or("no region")?;
    let epoch = epoch.parse()?;
    let region = region.parse()?;
    if region > 2 {
        return Err("a region above 2".into());
    }
    let arrival = put(alloc, inbox, published.parse()?, epoch, region)?;
    let have = inbox.have(epoch);
    let whole = inbox.whole(epoch);
    Ok(format!(in alloc; "{arrival:?} {have} {whole}")?)
}

/// Whether the line's batch is told what the line says.
fn is_told(alloc: Global, inbox: &mut Inbox, line: &str) -> Result<bool, Fail>
    requires { inbox.old.regions ≡ 3 }
    ensures { inbox.new.regions ≡ 3 }
{
    let (words, want) = line.split_once(" => ").ok_or("a line without an answer")?;
    Ok(told(alloc, inbox, words)?.as_str() == want)
}

/// Batches that come to one inbox in this order.
const TOLD: &str = "\
0 1 2 => New 1 false
0 1 2 => Known 1 false
0 1 0 => New 2 false
0 1 0 => Known 2 false
0 1 2 => Known 2 false
0 3 1 => New 1 false
0 1 1 => New 3 true
0 1 1 => Known 3 true
1 1 1 => Known 3 true
2 2 0 => Known 0 false
1 2 0 => New 1 false
0 64 0 => New 1 false
0 65 0 => Far(64) 0 false
1 65 0 => New 1 false
0 65 0 => Known 1 false
1 66 0 => Far(65) 0 false
4294967294 4294967295 1 => New 1 false
4294967295 4294967295 2 => Known 1 false
4294967200 4294967295 2 => Far(4294967264) 1 false";

#[test]
fn batches_are_told_what_becomes_of_them(rt: HostRuntime) -> Result<(), Fail> {
    let mut inbox = Inbox::new(rt.alloc(), 3);
    for line in TOLD.lines() {
        assert!(rt; is_told(rt.alloc(), &mut inbox, line)?, "{line}");
    }
    Ok(())
}

/// The regions of the batches that are taken of an epoch.
fn taken(alloc: Global, inbox: &mut Inbox, epoch: Epoch) -> Result<String, Fail>
    ensures { inbox.new.regions ≡ inbox.old.regions }
{
    let mut out = String::new(alloc);
    for batch in &inbox.take(epoch)? {
        write!(out, "{} of {}; ", batch.region, batch.epoch)?;
    }
    Ok(out)
}

/// An inbox that holds all batches of epoch 7, of which the last region's came first, one of epoch 6 and one
/// of epoch 8.
fn held(alloc: Global) -> Result<Inbox, Fail> {
    let mut inbox = Inbox::new(alloc, 3);
    put(alloc, &mut inbox, 5, 8, 1)?;
    put(alloc, &mut inbox, 5, 7, 2)?;
    put(alloc, &mut inbox, 5, 7, 0)?;
    put(alloc, &mut inbox, 5, 6, 2)?;
    put(alloc, &mut inbox, 5, 7, 1)?;
    Ok(inbox)
}

#[test]
fn a_whole_epoch_is_taken_in_the_order_of_regions(rt: HostRuntime) -> Result<(), Fail> {
    let alloc = rt.alloc();
    let mut inbox = held(alloc)?;
    for (epoch, want) in [
        (7, "0 of 7; 1 of 7; 2 of 7; "),
        (7, ""),
        (8, "1 of 8; "),
        (6, "2 of 6; "),
    ] {
        assert_eq!(rt; taken(alloc, &mut inbox, epoch)?.as_str(), want);
    }
    Ok(())
}

/// What is seen at a place: whether the batch is missing, and else its epoch and region.
fn seen(inbox: &Inbox, epoch: Epoch, region: RegionNo) -> (bool, Option<(Epoch, RegionNo)>) {
    let found = match inbox.get(epoch, region) {
        Some(batch) => Some((batch.epoch, batch.region)),
        None => None,
    };
    (inbox.missing(epoch, region), found)
}

#[test]
fn held_batches_are_found(rt: HostRuntime) -> Result<(), Fail> {
    let inbox = held(rt.alloc())?;
    for (epoch, region) in [(7, 0), (7, 2), (6, 2), (8, 1)] {
        assert_eq!(rt; seen(&inbox, epoch, region), (false, Some((epoch, region))));
    }
    for (epoch, region) in [(6, 0), (8, 0), (8, 2), (9, 1), (7, 3), (0, 7)] {
        assert_eq!(rt; seen(&inbox, epoch, region), (true, None));
    }
    Ok(())
}

/// A batch of region 1 and epoch 7 with so many candidates.
fn batch_of(alloc: Global, count: u8) -> Result<Batch, Fail>
    ensures { IfOk result (λ batch. batch.region ≡ 1) }
{
    let mut items = Vec::new(alloc);
    for _ in 0..count {
        items.push(Candidate {
            start: 6,
            set: WriteSet::empty(alloc),
        })?;
    }
    Ok(Batch {
        region: 1,
        epoch: 7,
        items: CandidateList::new(items),
    })
}

/// How many candidates the held batch of region 1 and epoch 7 has, if it is held.
fn candidates(inbox: &Inbox) -> Option<usize> {
    match inbox.get(7, 1) {
        Some(batch) => Some(batch.items.items().len()),
        None => None,
    }
}

/// A batch with so many candidates comes where the epoch of the first word is published, or it is to be held,
/// of which nothing is told.
fn again(alloc: Global, inbox: &mut Inbox, words: &str) -> Result<Option<Arrival>, Fail>
    requires { inbox.old.regions ≡ 3 }
    ensures { inbox.new.regions ≡ 3 }
{
    let (published, count) = words.split_once(' ').ok_or("one word")?;
    let count = count.parse()?;
    if published == "hold" {
        inbox.hold(batch_of(alloc, count)?)?;
        return Ok(None);
    }
    let published = published.parse()?;
    Ok(Some(inbox.put(published, batch_of(alloc, count)?)?))
}

/// Whether the line's batch is told so, and the held one has so many candidates then.
fn is_held_then(alloc: Global, inbox: &mut Inbox, line: &str) -> Result<bool, Fail>
    requires { inbox.old.regions ≡ 3 }
    ensures { inbox.new.regions ≡ 3 }
{
    let (words, want) = line.split_once(" => ").ok_or("a line without an answer")?;
    let arrival = again(alloc, inbox, words)?;
    let held = candidates(inbox);
    Ok(format!(in alloc; "{arrival:?} {held:?}")?.as_str() == want)
}

/// A batch that comes again leaves the one that is held, and one that is to be held replaces it, whatever is
/// published.
const AGAIN: &str = "\
5 1 => Some(New) Some(1)
5 2 => Some(Known) Some(1)
hold 2 => None Some(2)
7 3 => Some(Known) Some(2)
hold 0 => None Some(0)
7 3 => Some(Known) Some(0)";

#[test]
fn a_known_batch_leaves_the_held_one(rt: HostRuntime) -> Result<(), Fail> {
    let mut inbox = Inbox::new(rt.alloc(), 3);
    for line in AGAIN.lines() {
        assert!(rt; is_held_then(rt.alloc(), &mut inbox, line)?, "{line}");
    }
    Ok(())
}

/// The regions of the batches that are lent of an epoch.
fn lent(alloc: Global, inbox: &Inbox, epoch: Epoch) -> Result<String, Fail> {
    let mut out = String::new(alloc);
    for batch in &inbox.batches(epoch)? {
        write!(out, "{} of {}; ", batch.region, batch.epoch)?;
    }
    Ok(out)
}

// Each row has an epoch that is dropped, and what is then lent of another.
#[test]
fn batches_are_lent_until_they_are_dropped(rt: HostRuntime) -> Result<(), Fail> {
    let alloc = rt.alloc();
    let mut inbox = held(alloc)?;
    for (dropped, epoch, want) in [
        (9, 7, "0 of 7; 1 of 7; 2 of 7; "),
        (7, 7, ""),
        (7, 6, "2 of 6; "),
        (7, 8, "1 of 8; "),
        (8, 6, "2 of 6; "),
        (8, 8, ""),
    ] {
        inbox.drop_epoch(dropped);
        assert_eq!(rt; lent(alloc, &inbox, epoch)?.as_str(), want);
    }
    Ok(())
}
