//! The world of a play: regions, sessions and packets, moved by the events of a script.
//!
//! `specs/` says what the world is, and what each event prints and changes; these definitions speak of no map
//! or inbox. [`World::step`] prints the lines of the world's step and makes it. What the program's own regions
//! and packets stand for in that world is said in `specs/inner`, which the clauses of [`World`] cite.
//!
//! What holds of every play is said by functions that do nothing: [`plays_are_isolated`],
//! [`published_epochs_are_sealed`], [`journals_grow`], [`few_answers`] and their like.
//!
//! It stands on `world_script`, whose events it takes, on `write_set`, which merges what regions seal, on
//! `geo_schema` for the one table, and on `geo_base`.
#![tactic(auto)]

mod inbox;
mod laws;
mod packet;
mod printing;
mod region;
mod rows;
mod sending;
mod session;
mod sessions;
mod tables;
mod world;

pub use laws::{
    few_answers, few_rows, few_seals, journals_grow, no_other_refusals, plays_are_isolated,
    published_epochs_are_sealed, waiting_sessions_wait, whole_epochs_are_published,
};
pub use world::World;
