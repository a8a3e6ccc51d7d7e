//! The versions of scripts.
ghost use Rattle.std.specs.Prelude.{◌≡◌, pos};
ghost use Rattle.text_script.specs.Forms.{first_line, version_number, last_register as last_register_of, most_fields as most_fields_of};

/// The version of a script, which its first line names: which words its grammar has, how large its
/// numbers may be, and whether its sections begin by spawns.
#[derive(Clone, Copy, Debug, PartialEq, Eq)]
pub enum Version {
    /// `heap 1`.
    One,
    /// `heap 2`: with raw blocks and compare-and-set, and blocks of up to 1022 fields.
    Two,
    /// `heap 3`: with spawn and join besides, in the order of which its sections stand, and with
    /// registers 0 to 13.
    Three,
}

impl Version {
    /// The number of the version.
    pub fn number(self) -> u32
        ensures { result ≡ version_number self }
    {
        match self {
            Version::One => 1,
            Version::Two => 2,
            Version::Three => 3,
        }
    }

    /// The first line of a script of the version, without its line feed.
    pub fn first_line(self) -> &'static [u8]
        ensures { result.now ≡ first_line self }
    {
        match self {
            Version::One => b"heap 1",
            Version::Two => b"heap 2",
            Version::Three => b"heap 3",
        }
    }

    // The greatest register that a command names.
    pub(crate) fn last_register(self) -> i64
        ensures { result ≡ pos (last_register_of self) }
    {
        match self {
            Version::One | Version::Two => 15,
            Version::Three => 13,
        }
    }

    // The most fields of a block.
    pub(crate) fn most_fields(self) -> i64
        ensures { result ≡ pos (most_fields_of self) }
    {
        match self {
            Version::One => 126,
            Version::Two | Version::Three => 1022,
        }
    }
}
