//! Tests of the reader of scripts: lines of each form and lines that are none, and where a text that is no
//! script is refused.
//!
//! They use only what `geo_script` offers, and `schema_text` below it. What is wanted is worked by hand from the language of scripts.
#![tactic(auto)]

#[cfg(test)]
mod events;
#[cfg(test)]
mod heads;
#[cfg(test)]
mod reading;
#[cfg(test)]
mod seen;
#[cfg(test)]
mod statements;
#[cfg(test)]
mod tables;
#[cfg(test)]
mod texts;
#[cfg(test)]
mod whole;
