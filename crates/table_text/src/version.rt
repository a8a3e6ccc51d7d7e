//! The versions of a table's text.
ghost use Rattle.std.specs.Prelude.{◌≡◌};
ghost use Rattle.table_text.specs.Texts.{most_lines as most_lines_of};
ghost use Rattle.table_text.specs.Faults.{version_of as version_named};

/// On what a text plays.
#[derive(Clone, Copy, Debug, PartialEq, Eq)]
pub enum Version {
    /// A table of 64 buckets. There are at most 10,000 lines.
    One,
    /// A weak map. There are at most 199,984 lines.
    Two,
}

// The version that a first line names.
pub(crate) fn version_of(first: &[u8]) -> Option<Version>
    ensures { result ≡ version_named first.now }
{
    if first == b"table 1".as_slice() {
        return Some(Version::One);
    }
    if first == b"table 2".as_slice() {
        return Some(Version::Two);
    }
    None
}

// The greatest count of lines behind the first.
pub(crate) fn most_lines(version: Version) -> u32
    ensures { result ≡ most_lines_of version }
{
    match version {
        Version::One => 10_000,
        Version::Two => 199_984,
    }
}
