ghost use Rattle.std.specs.Prelude.{◌≡◌};
ghost use Rattle.tb_text.specs.Statuses.{code_of};

use crate::{Name, Path};

/// Why a command line is no command. An option is named by its long form with `--`, the root of a pair by `root`.
#[derive(Clone, Debug, PartialEq, Eq, Drop)]
pub enum UsageFault {
    /// The words have no reading.
    Unread,
    /// The value of this option is no number, or is out of range.
    BadNumber(Name),
    /// These two do not go together.
    BadPair(Name, Name),
    /// This word gives no path.
    BadRoot(Name),
}

/// An object of the outside that a run is handed.
#[derive(Clone, Copy, Debug, PartialEq, Eq)]
pub enum Which {
    Tree,
    Disk,
    Feed,
    Sink,
}

/// How a run ended.
#[derive(Clone, Debug, PartialEq, Eq, Drop)]
pub enum Status {
    /// The last settled generation has no diagnostic.
    Clean,
    /// It has plan faults, and neither `InvalidProject` nor `Cycle` applies.
    Skipped,
    /// It has diagnostics and no plan fault.
    Generated,
    /// A root's own config is missing or unreadable, and there is no cycle.
    InvalidProject,
    /// The references form a cycle.
    Cycle,
    /// The words are no command. Nothing else was done.
    Usage(UsageFault),
    /// Memory was refused.
    NoMemory,
    /// A call of this object failed. The project is given exactly for the disk.
    Outside { which: Which, project: Option<Path> },
    /// The words or the texts ask for what this version does not build yet.
    NotBuilt,
}

impl Status {
    /// The exit status of the program.
    pub fn code(&self) -> u8
        ensures { result ≡ code_of self.now }
    {
        match self {
            Status::Clean => 0,
            Status::Skipped => 1,
            Status::Generated => 2,
            Status::InvalidProject => 3,
            Status::Cycle => 4,
            Status::Usage(_) => 64,
            Status::NoMemory => 70,
            Status::Outside { .. } => 74,
            Status::NotBuilt => 75,
        }
    }
}
