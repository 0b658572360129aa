//! The program: it reads its command from the words that it is given, a script from standard input, and
//! prints the lines of the script's events to standard output.
//!
//! `play_call` promises what each status means: for what the source told, what was read and printed at every way
//! to end, and that the play's transactions were a snapshot-isolated history. `top` promises the same for the
//! words that ask for it, and `carry_out` for the arguments of a process, between any reader and any writer, with
//! nothing held back at done and with the number that the process ends with. `main` hands in standard input and
//! output, of which nothing is known.
#![tactic(auto)]

mod command;
mod edge;
mod events;
mod playing;
mod reading;
mod status;
#[cfg(test)]
mod tests;
mod top;

use edge::carry_out;
use std::process::ExitCode;
use std::{env, io};

fn main(rt: HostRuntime) -> ExitCode {
    let ended = carry_out(
        &rt,
        rt.alloc(),
        env::args(&rt),
        rt.reader(),
        io::writer(&rt),
    );
    let _ = rt.eprintln(ended.status);
    ended.code
}
