//! What is told of regions and packets.
ghost use Rattle.std.specs.Prelude.{◌≡◌};
ghost use Rattle.geo_report.specs.Refusals.{seal_number, seal_word};

use geo_base::{Epoch, RegionNo};

/// Why a region doesn't seal.
#[derive(Clone, Copy)]
pub enum SealWhy {
    /// Too many of its epochs are sealed and not published.
    Ahead,
    /// Its open epoch is the last.
    LastEpoch,
}

impl SealWhy {
    /// The number of the refusal.
    pub fn number(self) -> u8
        ensures { result ≡ seal_number self }
    {
        match self {
            SealWhy::Ahead => 50,
            SealWhy::LastEpoch => 51,
        }
    }

    /// The word of the refusal.
    pub fn word(self) -> &'static str
        ensures { result.now ≡ seal_word self }
    {
        match self {
            SealWhy::Ahead => "Ahead",
            SealWhy::LastEpoch => "LastEpoch",
        }
    }
}

/// What became of a packet.
#[derive(Clone, Copy)]
pub enum PacketNews {
    /// Its region holds its batch from now on.
    New,
    /// Its region holds its batch already, or has published its epoch.
    Known,
    /// Its epoch is past this limit, and its region doesn't take it.
    Far(u64),
    /// The batch that it asks for is in the packet that is told next.
    Answered,
    /// The batch that it asks for isn't in the log.
    Unanswered,
    /// Its region is down.
    Lost,
    /// No packet of this number was sent.
    Absent,
}

/// What is told of a region or a packet: one line.
#[derive(Clone, Copy)]
pub enum Notice {
    /// The region sealed its batch of the epoch, with so many candidates.
    Sealed {
        region: RegionNo,
        epoch: Epoch,
        count: u32,
    },
    /// A packet was sent to the region.
    Sent {
        packet: u64,
        to: RegionNo,
    },
    /// The region doesn't seal.
    SealRefused {
        region: RegionNo,
        why: SealWhy,
    },
    /// A packet was delivered, or there is none of this number.
    Packet {
        packet: u64,
        news: PacketNews,
    },
    /// The region published the epoch, of whose candidates so many committed and so many did not.
    Published {
        region: RegionNo,
        epoch: Epoch,
        commits: u32,
        aborts: u32,
    },
    /// The region can't publish the epoch yet: it has the batches of so many of all regions.
    Waiting {
        region: RegionNo,
        epoch: Epoch,
        have: u8,
        regions: u8,
    },
    /// The last epoch that the region has published. The lines of its tables follow.
    At {
        region: RegionNo,
        published: Epoch,
    },
    Crashed {
        region: RegionNo,
    },
    /// The region has read so many entries of its log.
    Restarted {
        region: RegionNo,
        entries: u64,
    },
    /// The region is to restart, and is up.
    Up {
        region: RegionNo,
    },
    /// The region is to do something, and is down.
    Down {
        region: RegionNo,
    },
}
