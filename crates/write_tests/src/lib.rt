//! Tests of statements that write or lock, over a source of rows: FOR UPDATE, INSERT, UPDATE and DELETE. They say how many
//! rows each is handed and how many it changes, what the transaction's net is behind it, and which of its faults is
//! answered.
//!
//! They play lines by `exec_kit`: texts are parsed and bound to a schema, and run over a list of rows with a net laid over
//! them. What is wanted is worked by hand from the rules of values, of conditions, of plans and of nets.
#![tactic(auto)]

#[cfg(test)]
mod bytes;
#[cfg(test)]
mod deletes;
#[cfg(test)]
mod depth;
#[cfg(test)]
mod inserts;
#[cfg(test)]
mod limits;
#[cfg(test)]
mod locks;
#[cfg(test)]
mod transactions;
#[cfg(test)]
mod updates;
#[cfg(test)]
mod wide;
