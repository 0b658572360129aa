//! What the words of the command line say.
ghost use Rattle.std.specs.Prelude.{◌≡◌, ◌≢◌, Err, IfErr, IfOk, MatchResult, map, string_bytes};
ghost use Rattle.std.specs.IoError.{error_kind};
ghost use Rattle.std.specs.Vec.Iter.{into_iter_items};
ghost use Rattle.geogauss.specs.Command.{IsPlay, plain_play, words_behind_name};

use crate::status::Status;
use geo_base::limits::LAST_EPOCH;
use std::alloc::Global;
use std::env::Args;
use std::io::{self, ErrorKind};
use std::marker::Model;
use thiserror::Error;

/// One word of the command line.
#[derive(Debug, Drop)]
pub struct Word {
    text: String,
}

impl Model for Word {
    ghost use Rattle.std.specs.Prelude.{ℕ, List, string_bytes};
    ghost use Rattle.std.specs.Coded.{coded_list, coded_ℕ};

    ghost Value = { List ℕ };

    ghost coded = { coded_list coded_ℕ };

    ghost view = { λ word. string_bytes word.text };
}

impl Word {
    /// The word of this text.
    pub fn new(text: String) -> Word
        ensures { result ≡ string_bytes text }
    {
        Word { text }
    }

    /// The text of the word.
    pub fn text(&self) -> &str
        ensures { result.now ≡ self.now }
    {
        self.text.as_str()
    }
}

/// The words of the command line, without the program's name.
#[derive(Debug, Drop)]
pub struct Words {
    items: Vec<String>,
}

impl Model for Words {
    ghost use Rattle.std.specs.Prelude.{ℕ, List, map, string_bytes};

    ghost Value = { List (List ℕ) };

    ghost view = { λ words. map string_bytes words.items.items };
}

impl Words {
    /// These words, in their order.
    pub fn new(words: Vec<String>) -> Words
        ensures { result ≡ map string_bytes words.items }
    {
        Words { items: words }
    }
}

/// How a script is played.
#[derive(Debug, Drop)]
pub struct PlayOpts {
    /// The folder that keeps the logs, if they are to outlive the play. Not built yet: it is read nowhere.
    pub logs: Option<Word>,
    /// Print what the play came to, and not each event's lines. Not built yet: a play wants it false.
    pub summary: bool,
    /// No region opens an epoch past this one.
    pub last_epoch: u32,
}

/// What the program is asked to do.
#[derive(Debug, Drop)]
pub enum Command {
    /// Play the script that is read.
    Play(PlayOpts),
}

/// Why no command was read from the words.
#[derive(Clone, Copy, Debug, PartialEq, Eq, Error)]
pub enum WordFault {
    /// The words name no command.
    #[error("the words name no command")]
    Usage,
    /// There was no memory for what the words say. It says nothing of the words.
    #[error("out of memory")]
    NoMemory,
}

impl WordFault {
    /// How the call ends that the words were given to.
    pub(crate) fn status(self) -> Status
        ensures usage { self ≡ WordFault.Usage → result ≡ Status.Usage }
        ensures memory { self ≡ WordFault.NoMemory → result ≡ Status.NoMemory }
    {
        match self {
            WordFault::Usage => Status::Usage,
            WordFault::NoMemory => Status::NoMemory,
        }
    }
}

/// The words behind the program's name, which is the first of the arguments of the process. Arguments that could not
/// be given because one is no text name no command.
pub fn words_of(alloc: Global, args: io::Result<Args>) -> Result<Words, WordFault>
    ensures words { IfOk args (λ all. MatchResult result
        (λ words. words ≡ words_behind_name (into_iter_items all)) (λ fault. fault ≡ WordFault.NoMemory)) }
    ensures no_text { IfErr args (λ e. error_kind e ≡ ErrorKind.InvalidData → result ≡ Err WordFault.Usage) }
    ensures no_args { IfErr args (λ e. error_kind e ≢ ErrorKind.InvalidData → result ≡ Err WordFault.NoMemory) }
{
    match args {
        Ok(all) => without_name(alloc, all),
        Err(fault) => Err(args_fault(fault.kind())),
    }
}

/// These words without the first.
fn without_name(alloc: Global, all: Args) -> Result<Words, WordFault>
    ensures { MatchResult result (λ words. words ≡ words_behind_name (into_iter_items all)) (λ fault. fault ≡ WordFault.NoMemory) }
{
    let mut rest = all;
    drop(rest.next());
    let mut words = Vec::new(alloc);
    for word in rest {
        if words.push(word).is_err() {
            return Err(WordFault::NoMemory);
        }
    }
    Ok(Words::new(words))
}

/// Why the arguments of a process were not given.
fn args_fault(kind: ErrorKind) -> WordFault
    ensures no_text { kind ≡ ErrorKind.InvalidData → result ≡ WordFault.Usage }
    ensures no_args { kind ≢ ErrorKind.InvalidData → result ≡ WordFault.NoMemory }
{
    match kind {
        ErrorKind::InvalidData => WordFault::Usage,
        _ => WordFault::NoMemory,
    }
}

/// The command that the words name: the one word `play` is a play with nothing chosen.
pub fn read_words(alloc: Global, words: &Words) -> Result<Command, WordFault>
    ensures { MatchResult result
        (λ command. (command ≡ Command.Play plain_play) × IsPlay words.now)
        (λ fault. (fault ≡ WordFault.Usage) × ¬ (IsPlay words.now)) }
{
    let _ = alloc;
    match words.items.as_slice() {
        [word] if word.as_str() == "play" => Ok(Command::Play(PlayOpts {
            logs: None,
            summary: false,
            last_epoch: LAST_EPOCH,
        })),
        _ => Err(WordFault::Usage),
    }
}
