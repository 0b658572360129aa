//! What sessions, regions and packets are told, and how it is printed.
//!
//! A step of a session or a region answers values: a [`Reply`], which may be a [`Refusal`] with its number, or a
//! [`Notice`]. This crate alone turns them into bytes. What it answers are exactly the lines that the definitions say
//! (`specs/Replies.antt`, `Refusals.antt`, `Notices.antt` and `TableLines.antt`), want of memory apart; so the layers
//! above can compare values, and write no such text of their own.
#![tactic(auto)]

mod listing;
mod notice;
mod noticing;
mod pieces;
mod refusal;
mod refusing;
mod reply;
mod replying;
mod showing;

pub use notice::{Notice, PacketNews, SealWhy};
pub use noticing::notice_lines;
pub use refusal::Refusal;
pub use reply::{LineList, Reply, TextList};
pub use replying::reply_lines;
pub use showing::table_lines;
