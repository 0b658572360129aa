ghost use Rattle.std.specs.Prelude.{◌≡◌};

use geo_base::RegionNo;
use std::marker::Model;

/// A statement over the table `kv (k INT KEY, v INT)`.
#[derive(Clone, Copy, Debug, PartialEq, Eq)]
pub enum Statement {
    /// `INSERT INTO kv VALUES (key, value)`
    Insert { key: i64, value: i64 },
    /// `SELECT * FROM kv`
    Select,
}

/// What a line of a script asks for. Regions are below the script's number of them, and sessions 0 to 63.
#[derive(Clone, Copy, Debug, PartialEq, Eq)]
pub enum Event {
    /// A session of the region runs a statement.
    Sql {
        region: RegionNo,
        session: u8,
        statement: Statement,
    },
    /// The region seals its open epoch.
    Seal {
        region: RegionNo,
    },
    /// The packets of these numbers come to their regions, one after another.
    Deliver {
        first: u32,
        last: u32,
    },
    /// The region merges and publishes its next epoch.
    Publish {
        region: RegionNo,
    },
    /// The region shows its tables.
    Show {
        region: RegionNo,
    },
}

/// Events in the order of their lines. Contracts see the list.
#[derive(Debug, Drop)]
pub struct EventList {
    items: Vec<Event>,
}

impl Model for EventList {
    ghost use Rattle.std.specs.Prelude.{List};
    ghost use Rattle.world_script.specs.declared.event.Event.{Event};

    ghost Value = { List Event };

    ghost view = { λ l. l.items.items };
}

impl EventList {
    /// These events, in the order of their lines.
    pub fn new(items: Vec<Event>) -> EventList
        ensures { result ≡ items.items }
    {
        EventList { items }
    }

    /// The events, in the order of their lines.
    pub fn items(&self) -> &[Event]
        ensures { result.now ≡ self.now }
    {
        self.items.as_slice()
    }
}
