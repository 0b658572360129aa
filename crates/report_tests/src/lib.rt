//! Tests of what is printed: each kind of reply, each refusal with its number, each notice, and tables.
//!
//! They use only what the crates below offer. What is wanted is written by hand, from the rules of printed texts.
#![tactic(auto)]

#[cfg(test)]
mod database;
#[cfg(test)]
mod notices;
#[cfg(test)]
mod playing;
#[cfg(test)]
mod refusals;
#[cfg(test)]
mod replies;
#[cfg(test)]
mod tables;
