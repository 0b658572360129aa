//! Tests of notices.
use crate::database::database;
use crate::playing::{cut, play};
use geo_report::{Notice, PacketNews, SealWhy};
use std::test::Fail;

/// What became of the packet with the number.
fn news_of(packet: &str, news: PacketNews) -> Result<Notice, Fail> {
    let packet = packet.parse()?;
    Ok(Notice::Packet { packet, news })
}

/// Why the region with the number doesn't seal.
fn refused_of(region: &str, why: SealWhy) -> Result<Notice, Fail> {
    let region = region.parse()?;
    Ok(Notice::SealRefused { region, why })
}

/// The notice of this name on the region, an epoch, and two numbers.
fn epoch_of(name: &str, words: &str) -> Result<Notice, Fail> {
    let (region, rest) = cut(words)?;
    let (epoch, rest) = cut(rest)?;
    let (first, second) = cut(rest)?;
    let region = region.parse()?;
    let epoch = epoch.parse()?;
    match name {
        "Published" => Ok(Notice::Published {
            region,
            epoch,
            commits: first.parse()?,
            aborts: second.parse()?,
        }),
        "Waiting" => Ok(Notice::Waiting {
            region,
            epoch,
            have: first.parse()?,
            regions: second.parse()?,
        }),
        _ => Err("no notice".into()),
    }
}

/// The notice of this name, and its numbers in the order in which they are printed.
pub fn notice_of(name: &str, words: &str) -> Result<Notice, Fail> {
    match name {
        "Sealed" => {
            let (region, rest) = cut(words)?;
            let (epoch, count) = cut(rest)?;
            Ok(Notice::Sealed {
                region: region.parse()?,
                epoch: epoch.parse()?,
                count: count.parse()?,
            })
        }
        "Sent" => {
            let (packet, to) = cut(words)?;
            Ok(Notice::Sent {
                packet: packet.parse()?,
                to: to.parse()?,
            })
        }
        "Ahead" => refused_of(words, SealWhy::Ahead),
        "LastEpoch" => refused_of(words, SealWhy::LastEpoch),
        "New" => news_of(words, PacketNews::New),
        "Known" => news_of(words, PacketNews::Known),
        "Far" => {
            let (packet, limit) = cut(words)?;
            news_of(packet, PacketNews::Far(limit.parse()?))
        }
        "Answered" => news_of(words, PacketNews::Answered),
        "Unanswered" => news_of(words, PacketNews::Unanswered),
        "Lost" => news_of(words, PacketNews::Lost),
        "Absent" => news_of(words, PacketNews::Absent),
        "At" => {
            let (region, published) = cut(words)?;
            Ok(Notice::At {
                region: region.parse()?,
                published: published.parse()?,
            })
        }
        "Crashed" => Ok(Notice::Crashed {
            region: words.parse()?,
        }),
        "Restarted" => {
            let (region, entries) = cut(words)?;
            Ok(Notice::Restarted {
                region: region.parse()?,
                entries: entries.parse()?,
            })
        }
        "Up" => Ok(Notice::Up {
            region: words.parse()?,
        }),
        "Down" => Ok(Notice::Down {
            region: words.parse()?,
        }),
        _ => epoch_of(name, words),
    }
}

const NOTICES: &str = "\
Sealed 0 1 1 => region 0 sealed 1 with 1
Sealed 7 4294967293 4096 => region 7 sealed 4294967293 with 4096
Sent 0 1 => packet 0 to 1
Sent 18446744073709551615 0 => packet 18446744073709551615 to 0
Ahead 0 => region 0 refused 50 Ahead
LastEpoch 3 => region 3 refused 51 LastEpoch
New 127 => packet 127 new
Known 128 => packet 128 known
Far 129 64 => packet 129 far 64
Answered 1 => packet 1 answered
Unanswered 130 => packet 130 unanswered
Lost 129 => packet 129 lost
Absent 9 => packet 9 absent
Published 0 1 2 1 => region 0 published 1 commits 2 aborts 1
Waiting 2 1 2 3 => region 2 waiting 1: have 2 of 3
At 0 1 => region 0 at 1
Crashed 0 => region 0 crashed
Restarted 0 65 => region 0 restarted with 65
Up 0 => region 0 up
Down 1 => region 1 down";

#[test]
fn a_notice_is_a_line(rt: HostRuntime) -> Result<(), Fail> {
    let alloc = rt.alloc();
    let schema = database(alloc)?;
    play(alloc, &schema, NOTICES)
}
