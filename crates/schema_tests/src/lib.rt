//! Tests of schemas, of the rows of their tables, shown and hidden, and of ranges of keys.
//!
//! They use only what `geo_schema` offers. What is wanted is worked by hand from the rules of tables and rows.
#![tactic(auto)]

#[cfg(test)]
mod cells;
#[cfg(test)]
mod rows;
#[cfg(test)]
mod schemas;
#[cfg(test)]
mod tables;
#[cfg(test)]
mod uniques;
