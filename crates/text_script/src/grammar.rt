// The grammar of a version, in a run with so many domains.
ghost use Rattle.std.specs.Prelude.{◌≡◌};
ghost use Rattle.text_script.specs.Forms.{fits as fits_kind, least as least_of, greatest as greatest_of};
ghost use Rattle.text_script.specs.Faults.{is_section as is_section_of};

use crate::form::Operand;
use crate::version::Version;
use std::marker::Model;

// The grammar of a version, in a run with so many domains, with those of its limits that not all grammars have alike.
#[derive(Drop)]
pub(crate) struct Grammar {
    version: Version,
    domains: u32,
    last_register: i64,
    most_fields: i64,
    last_section: i64,
}

impl Model for Grammar {
    ghost use Rattle.std.specs.Prelude.{◌≡◌, pos, min, ◌-◌};
    ghost use Rattle.text_script.specs.Forms.{last_register as last_register_of, most_fields as most_fields_of};
    ghost use Rattle.text_script.specs.Script.{RunGrammar};

    ghost Value = { RunGrammar };

    ghost view = { λ g. record { version = g.version; domains = g.domains } };

    ghost invariant = { λ g. (g.last_register ≡ pos (last_register_of g.version)) × (g.most_fields ≡ pos (most_fields_of g.version)) × (g.last_section ≡ pos (min 7 (g.domains - 1))) };
}

impl Grammar {
    pub(crate) fn new(version: Version, domains: u32) -> Grammar
        ensures version { result.version ≡ version }
        ensures domains { result.domains ≡ domains }
    {
        Grammar {
            version,
            domains,
            last_register: version.last_register(),
            most_fields: version.most_fields(),
            last_section: i64::from(domains.saturating_sub(1).min(7)),
        }
    }

    pub(crate) fn version(&self) -> Version
        ensures { result ≡ self.now.version }
    {
        self.version
    }

    // Whether a number is that of a section.
    pub(crate) fn is_section(&self, number: i64) -> bool
        ensures { result ≡ is_section_of self.now.domains number }
    {
        0 <= number && number < i64::from(self.domains)
    }

    // Whether a number is in the range of its kind.
    pub(crate) fn fits(&self, kind: Operand, number: i64) -> bool
        ensures { result ≡ fits_kind self.now.version self.now.domains kind number }
    {
        least(kind) <= number && number <= self.greatest(kind)
    }

    fn greatest(&self, kind: Operand) -> i64
        ensures { result ≡ greatest_of self.now.version self.now.domains kind }
    {
        match kind {
            Operand::Register => self.last_register,
            Operand::Tag => 245,
            Operand::RawTag => 255,
            Operand::FieldCount => self.most_fields,
            Operand::KeyCount => 8,
            Operand::Index => 1023,
            Operand::FinaliserNumber => 65_535,
            Operand::Integer => 4_611_686_018_427_387_903,
            Operand::Section => self.last_section,
        }
    }
}

fn least(kind: Operand) -> i64
    ensures { result ≡ least_of kind }
{
    match kind {
        Operand::RawTag => 251,
        Operand::FieldCount | Operand::KeyCount => 1,
        Operand::Integer => -4_611_686_018_427_387_904,
        _ => 0,
    }
}
