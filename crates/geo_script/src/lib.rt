//! Reads the two forms of script, `play` and `run`.
//!
//! A script is a head, which says how many regions there are and declares the tables, and then one line for
//! each event. `read_script` answers the script that the bytes spell, and exactly where they spell one; else
//! their first bad line and what is wrong with it, and exactly that one; want of memory apart. Which texts are
//! scripts is said in `specs/Spelling.antt`, and what is wrong with others in `specs/Faults.antt` and
//! `specs/Wrongs.antt`. How the code reads stands in `specs/inner`, and laws of the crate say that it finds
//! exactly the scripts and the faults that are there.
#![tactic(auto)]

mod event;
mod fault;
mod laws;
pub mod limits;
mod past;
mod reading;
mod script;
mod verb;
mod word;

pub use event::{Event, Sealing};
pub use fault::{ScriptFault, ScriptKind, ScriptRefusal};
pub use laws::{
    a_text_is_of_one_script_or_has_one_fault, faults_are_first_bad_lines, scripts_are_their_texts,
};
pub use reading::read_script;
pub use script::{EventAt, EventAtList, Form, Script};
pub use word::Word;
