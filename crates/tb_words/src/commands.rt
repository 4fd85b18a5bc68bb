ghost use Rattle.std.specs.Prelude.{◌≡◌, map, option_map, string_bytes};
ghost use Rattle.tb_words.specs.Answers.{Gives};
ghost use Rattle.tb_words.specs.Commands.{command_of, checked, bad_pair, pair_fault};
ghost use Rattle.tb_words.specs.Readings.{seen};

use crate::numbers::optional_number;
use crate::parse::{Words, words_of};
use crate::roots::roots_by;
use std::alloc::{AllocError, AllocFailed, Global};
use tb_text::{List, Name, NoMemory, Path, UsageFault};
use thiserror::Error;

/// What the program is asked to do.
#[derive(Clone, Debug, Drop)]
pub struct Command {
    /// Build also what is up to date.
    pub force: bool,
    /// Remove outputs and build nothing.
    pub clean: bool,
    /// Say what would be built.
    pub dry: bool,
    /// Go on, and build anew after each change.
    pub watch: bool,
    /// Report each project.
    pub verbose: bool,
    /// 1 to 64.
    pub workers: u32,
    /// How many turns of the feed are taken, 1 to 4,294,967,295.
    pub turns: u64,
    /// Build the generated tree of this number, 1 to 500, in place of the workspace.
    pub gen_number: Option<u32>,
    /// The configs of the roots, one at least.
    pub roots: List<Path>,
}

/// Why words are no command.
#[derive(Clone, Debug, PartialEq, Eq, Drop, Error)]
pub enum WordsFault {
    #[error("the command line is faulty")]
    Usage(UsageFault),
    #[error("out of memory")]
    NoMemory,
}

impl From<AllocError> for WordsFault {
    ghost use Rattle.tb_words.specs.declared.commands.WordsFault.TheVariants.{NoMemory};

    ghost from_gives = { λ _ e. e ≡ NoMemory };

    fn from(_: AllocError) -> Self {
        WordsFault::NoMemory
    }
}

impl<T: Drop> From<AllocFailed<T>> for WordsFault {
    ghost use Rattle.tb_words.specs.declared.commands.WordsFault.TheVariants.{NoMemory};

    ghost from_gives = { λ _ e. e ≡ NoMemory };

    fn from(_: AllocFailed<T>) -> Self {
        WordsFault::NoMemory
    }
}

impl From<NoMemory> for WordsFault {
    ghost use Rattle.tb_words.specs.declared.commands.WordsFault.TheVariants.{NoMemory as OutOfMemory};

    ghost from_gives = { λ _ e. e ≡ OutOfMemory };

    fn from(_: NoMemory) -> Self {
        WordsFault::NoMemory
    }
}

/// The workers where `--workers` is not given.
const DEFAULT_WORKERS: u32 = 4;

/// The turns where `--turns` is not given.
const DEFAULT_TURNS: u32 = 4_294_967_295;

/// The command that these words are, which stand after the program's name, or their first fault.
#[tactic(none)]
pub fn read_words(alloc: Global, words: &[String]) -> Result<Command, WordsFault>
    ensures { Gives (command_of (map (λ word. string_bytes word) words.now)) result }
{
    let given = words_of(alloc, words)?;
    command_from(alloc, &given)
}

#[tactic(none)]
fn command_from(alloc: Global, given: &Words) -> Result<Command, WordsFault>
    ensures { Gives (checked (seen given.now)) result }
{
    let workers = optional_number(alloc, "--workers", 1, 64, given.workers)?;
    let turns = optional_number(alloc, "--turns", 1, DEFAULT_TURNS, given.turns)?;
    let gen_number = optional_number(alloc, "--gen", 1, 500, given.gen_number)?;
    check_pairs(alloc, given)?;
    let roots = roots_by(alloc, gen_number, given.roots.as_slice())?;
    Ok(Command {
        force: given.force,
        clean: given.clean,
        dry: given.dry,
        watch: given.watch,
        verbose: given.verbose,
        workers: workers.unwrap_or(DEFAULT_WORKERS),
        turns: u64::from(turns.unwrap_or(DEFAULT_TURNS)),
        gen_number,
        roots,
    })
}

fn check_pairs(alloc: Global, given: &Words) -> Result<(), WordsFault>
    ensures { Gives (pair_fault (bad_pair (seen given.now))) result }
{
    match pair_of(given) {
        Some((first, second)) => {
            let first = Name::copy_of(alloc, first)?;
            let second = Name::copy_of(alloc, second)?;
            Err(WordsFault::Usage(UsageFault::BadPair(first, second)))
        }
        None => Ok(()),
    }
}

/// The first two of these words that do not go together.
fn pair_of(given: &Words) -> Option<(&'static str, &'static str)>
    ensures { option_map (λ pair. (pair.0.now, pair.1.now)) result ≡ bad_pair (seen given.now) }
{
    let generated = given.gen_number.is_some();
    if given.clean && given.force {
        Some(("--clean", "--force"))
    } else if given.clean && given.verbose {
        Some(("--clean", "--verbose"))
    } else if given.clean && given.watch {
        Some(("--clean", "--watch"))
    } else if given.clean && given.dry {
        Some(("--clean", "--dry"))
    } else if given.dry && given.watch {
        Some(("--dry", "--watch"))
    } else if generated && given.watch {
        Some(("--gen", "--watch"))
    } else if generated && given.clean {
        Some(("--gen", "--clean"))
    } else if generated && given.dry {
        Some(("--gen", "--dry"))
    } else if generated && !given.roots.is_empty() {
        Some(("--gen", "root"))
    } else {
        None
    }
}
