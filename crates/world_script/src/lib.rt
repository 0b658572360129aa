//! The scripts that the program plays, and their reader.
//!
//! [`read_script`] answers the script that bytes spell, that one and no other, or the first bad line of bytes
//! that spell none; want of memory apart. `specs/Script.antt` says what a script is and what its text looks
//! like, and `specs/Fault.antt` what the first bad line is. How the code takes a text apart stands in
//! `specs/inner`. The functions of `laws` say that a text is of one script or has one first bad line, and not
//! both.
//!
//! It stands on `geo_base`, for limits and the type of a region's number, and knows nothing of what events do.
#![tactic(auto)]

mod event;
mod laws;
mod reading;
mod script;

pub use event::{Event, EventList, Statement};
pub use laws::{a_fault_is_one_line, a_script_has_no_fault, a_text_is_one_script};
pub use reading::read_script;
pub use script::{ReadFault, Script, ScriptFault, ScriptKind};
