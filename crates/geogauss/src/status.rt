ghost use Rattle.std.specs.Prelude.{◌≡◌};
ghost use Rattle.geogauss.specs.Status.{number_of, kind_text};

use std::fmt;
use world_script::ScriptKind;

/// How a call ended.
#[derive(Clone, Copy, Debug, PartialEq, Eq)]
pub enum Status {
    /// The script was read to its end, and all of it was done.
    Done,
    /// The words are no command.
    Usage,
    /// The script was refused at its first bad line, counted from 1, or as a whole at line 0.
    ScriptFault { line: u32, kind: ScriptKind },
    /// The script's source failed.
    ReadFault,
    /// The sink of the printed lines failed.
    WriteFault,
    /// There was no memory.
    NoMemory,
}

impl Status {
    /// The number that the process ends with.
    pub fn number(&self) -> u8
        ensures { result ≡ number_of self.now }
    {
        match self {
            Status::Done => 0,
            Status::Usage => 2,
            Status::ScriptFault { line: _, kind: _ } => 3,
            Status::ReadFault => 4,
            Status::WriteFault => 5,
            Status::NoMemory => 8,
        }
    }
}

/// The name of what is wrong with a line.
fn kind_name(kind: ScriptKind) -> &'static str
    ensures { result.now ≡ kind_text kind }
{
    match kind {
        ScriptKind::TooLong => "TooLong",
        ScriptKind::NotBuilt => "NotBuilt",
    }
}

impl fmt::Display for Status {
    ghost use Rattle.std.specs.Prelude.{Some};
    ghost use Rattle.geogauss.specs.Status.{status_text};

    ghost output = { λ status. Some (status_text status) };

    fn fmt<W: fmt::Write>(&self, f: &mut fmt::Formatter<W>) -> fmt::Result {
        match self {
            Status::Done => write!(f, "done"),
            Status::Usage => write!(f, "usage: geogauss play"),
            Status::ScriptFault { line, kind } => {
                let kind = kind_name(*kind);
                write!(f, "script fault at line {line}: {kind}")
            }
            Status::ReadFault => write!(f, "read fault"),
            Status::WriteFault => write!(f, "write fault"),
            Status::NoMemory => write!(f, "out of memory"),
        }
    }
}
