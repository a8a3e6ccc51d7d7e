//! What the words of the command line ask for.
ghost use Rattle.std.specs.Prelude.{◌≡◌};
ghost use Rattle.model_core.specs.Domains.{class_count};
ghost use Rattle.text_script.specs.Words.Jobs.{is_generable, load_sizes};
ghost use Rattle.text_script.specs.Words.RunWords.{is_replay as may_be_replay, is_run as may_be_run, is_table as may_be_table};

use crate::words::options::{Given, sizes};
use heap_words::classes::reserve;
use model_core::state::Sizes;

const LARGEST_BASE: u32 = 1_000_000;

const MOST_DOMAINS: u32 = 8;

const MOST_COMMANDS: u64 = 200_000;

// How many domains a heap has where the words don't say it.
pub(crate) const RUN_DOMAINS: u32 = 2;

pub(crate) const TABLE_DOMAINS: u32 = 1;

// How many pools a heap must have for a text of a table, beside those that are kept free and one for each class.
const TABLE_POOLS: u32 = 32;

/// What the words of the command line ask for.
#[derive(Clone, Copy, Debug, PartialEq, Eq)]
pub enum Job {
    /// A run of a script on a heap of these sizes.
    Run(Sizes),
    /// A run of a script under a schedule, on a heap of these sizes.
    Replay(Sizes),
    /// A run of a text of a table on a heap of these sizes. Of several domains each has a section of the text.
    Table(Sizes),
    /// A script that is generated and written.
    Gen(Generated),
    /// A script that is generated and run.
    Load(Generated),
}

/// Which script is generated.
#[derive(Clone, Copy, Debug, PartialEq, Eq)]
pub struct Generated {
    /// The number from which the integers of the script count, 0 to 1,000,000.
    pub base: u32,
    /// How many domains have a section in the script, 1 to 8.
    pub domains: u32,
    /// How many commands the section of each domain has: at most 200,000 in all domains.
    pub commands: u32,
}

impl Generated {
    /// The sizes of the heap in which the script is run: its domains, and otherwise what words without
    /// options ask for.
    pub fn sizes(&self) -> Sizes
        ensures { result ≡ load_sizes self.now }
    {
        let given = Given {
            domains: Some(self.domains),
            minor: None,
            pools: None,
        };
        sizes(given, RUN_DOMAINS)
    }

    // Whether the words may ask for this script.
    pub(crate) fn is_generable(&self) -> bool
        ensures { result ≡ is_generable self.now }
    {
        self.base <= LARGEST_BASE
            && 1 <= self.domains
            && self.domains <= MOST_DOMAINS
            && u64::from(self.domains) * u64::from(self.commands) <= MOST_COMMANDS
    }
}

// Whether a script may be run on a heap of these sizes.
pub(crate) fn is_run(sizes: &Sizes) -> bool
    requires { sizes.now.classes ≡ class_count }
    ensures { result ≡ may_be_run sizes.now }
{
    sizes.first_outside().is_none()
}

// Whether a script may be replayed on a heap of these sizes.
pub(crate) fn is_replay(sizes: &Sizes) -> bool
    requires { sizes.now.classes ≡ class_count }
    ensures { result ≡ may_be_replay sizes.now }
{
    is_run(sizes) && 2 * reserve(sizes.domains, sizes.minor_words) + 2 <= sizes.pools
}

// Whether a text of a table may be run on a heap of these sizes.
pub(crate) fn is_table(sizes: &Sizes) -> bool
    requires { sizes.now.classes ≡ class_count }
    ensures { result ≡ may_be_table sizes.now }
{
    if !is_run(sizes) {
        return false;
    }
    let needed = reserve(sizes.domains, sizes.minor_words) + sizes.classes + TABLE_POOLS;
    needed <= sizes.pools
}
