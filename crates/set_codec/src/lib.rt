//! Batches and packets as bytes, in one spelling a format for all who know the schema.
//!
//! A batch has a spelling in each of two formats, GGB1 and GGB2, and where it touches a row one in GGB2
//! alone. A writer answers the GGB2 spelling of a batch that fits the schema. A reader answers the batch
//! or the packet that the bytes spell, in either format, and where they spell none the first fault from
//! the left, with its place. What is read fits the schema and is spelled by exactly the bytes, what fits
//! is read back from its spellings, no spelling begins another, and a fault is answered exactly where the
//! bytes have it. A size is counted without bytes, and is the length of a spelling.
#![tactic(auto)]

mod batch_reading;
mod change_reading;
mod fault;
mod fields;
mod format;
mod kind;
mod laws;
mod packet;
mod row_reading;
mod size;
mod writing;

pub use batch_reading::read_batch;
pub use fault::{CodecFault, Limit};
pub use laws::{
    no_spelling_begins_another, one_answer_for_all_bytes, one_spelling_a_format, size_is_length,
};
pub use packet::{ByteList, Packet, packet_bytes, read_packet};
pub use size::batch_size;
pub use writing::batch_bytes;
