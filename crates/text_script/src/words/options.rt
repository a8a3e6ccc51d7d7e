//! The options of `run` and `table`, and what they give.
ghost use Rattle.std.specs.Prelude.{◌≡◌, Option};
ghost use Rattle.text_script.specs.Words.Options.{given_at, setting_named, with_number};
ghost use Rattle.text_script.specs.Words.RunWords.{sizes_or};

use heap_words::classes::CLASS_COUNT;
use model_core::state::Sizes;

const MINOR_WORDS: u32 = 32768;

const POOLS: u32 = 512;

// An option.
#[derive(Clone, Copy, Debug, PartialEq, Eq)]
pub enum Setting {
    Domains,
    Minor,
    Pools,
}

// The numbers that the words gave so far.
#[derive(Clone, Copy, Debug, PartialEq, Eq)]
pub struct Given {
    pub domains: Option<u32>,
    pub minor: Option<u32>,
    pub pools: Option<u32>,
}

// What was read of the words: the numbers, and the option whose number comes next.
#[derive(Clone, Copy, Debug, PartialEq, Eq)]
pub struct Read {
    pub given: Given,
    pub waiting: Option<Setting>,
}

// The option with this name.
pub(crate) fn named_setting(name: &str) -> Option<Setting>
    ensures { result ≡ setting_named name.now }
{
    match name {
        "domains" => Some(Setting::Domains),
        "minor" => Some(Setting::Minor),
        "pools" => Some(Setting::Pools),
        _ => None,
    }
}

impl Given {
    // The number that an option was given.
    pub(crate) fn number(&self, setting: Setting) -> Option<u32>
        ensures { result ≡ given_at self.now setting }
    {
        match setting {
            Setting::Domains => self.domains,
            Setting::Minor => self.minor,
            Setting::Pools => self.pools,
        }
    }

    // The same with one more number.
    pub(crate) fn with(self, setting: Setting, number: u32) -> Given
        ensures { result ≡ with_number self setting number }
    {
        let mut given = self;
        match setting {
            Setting::Domains => given.domains = Some(number),
            Setting::Minor => given.minor = Some(number),
            Setting::Pools => given.pools = Some(number),
        }
        given
    }
}

// The sizes that the numbers ask for, with so many domains where no number says how many.
pub(crate) fn sizes(given: Given, domains: u32) -> Sizes
    ensures { result ≡ sizes_or domains given }
{
    Sizes {
        domains: given.domains.unwrap_or(domains),
        pools: given.pools.unwrap_or(POOLS),
        minor_words: given.minor.unwrap_or(MINOR_WORDS),
        classes: CLASS_COUNT as u32,
    }
}
