use crate::event::Event;
use geo_base::Many;
use geo_schema::Schema;

/// The two forms of script.
#[derive(Clone, Copy, Debug, PartialEq, Eq)]
pub enum Form {
    /// Every event of every region, in one order.
    Play,
    /// The statements of each session, and where regions crash.
    Run,
}

/// An event and the number of its line, counted from 1.
#[derive(Drop)]
pub struct EventAt {
    /// From 4 on: a head has at least three lines.
    pub line: u32,
    /// What the line asks for.
    pub event: Event,
}

/// Events in the order of their lines.
pub type EventAtList = Many<EventAt>;

/// A script that was read.
#[derive(Drop)]
pub struct Script {
    /// How many regions there are, 1 to 8.
    pub regions: u8,
    /// The tables and their indexes, in the order of their lines.
    pub schema: Schema,
    /// The events, in the order of their lines.
    pub events: EventAtList,
}
