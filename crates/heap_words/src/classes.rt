//! The size classes of the major heap's pools, and the pools kept free for promotion.
ghost use Rattle.std.specs.Prelude.{◌≡◌, ◌<◌, ◌≤◌, ◌+◌, ◌*◌, ◌/◌, IsTrue, MatchOption, slice_index};
ghost use Rattle.heap_words.specs.Classes.Table.{is_table, EachBelow, IsLeastFor};

/// The words of a pool.
pub const POOL_WORDS: u32 = 4096;

/// How many size classes the heap has.
pub const CLASS_COUNT: usize = 9;

/// The words of a block of each class.
pub const SIZES: [u32; CLASS_COUNT] = [4, 8, 16, 32, 64, 128, 256, 512, 1024];

/// The heap's own table.
pub const CLASSES: Classes<CLASS_COUNT> = Classes { sizes: SIZES };

/// A table of `C` rising block sizes in words, each dividing a pool's 4096 words.
///
/// Small blocks of the major heap come from pools segregated by size, so a block takes the words
/// of its class ("Retrofitting Parallelism onto OCaml", section 3.1).
#[derive(Clone, Copy, Debug)]
pub struct Classes<const C: usize> {
    /// The words of each class.
    pub sizes: [u32; C],
    ghost table: { IsTrue (is_table sizes) },
}

impl<const C: usize> Classes<C> {
    /// The index of the least class of at least `words` words. `None` exactly where `words` is
    /// above the last size.
    pub fn class_of(&self, words: usize) -> Option<usize>
        ensures { MatchOption result (EachBelow self.now.sizes words) (IsLeastFor self.now.sizes words) }
    {
        for (class, size) in self.sizes.iter().enumerate() {
            if words <= *size as usize {
                return Some(class);
            }
        }
        None
    }

    /// The words of a block of a class.
    pub fn words_of(&self, class: usize) -> usize
        requires { class < C }
        ensures { result ≡ slice_index self.now.sizes class }
    {
        self.sizes[class] as usize
    }
}

/// The heap's own table, [`CLASSES`], of which callers know the sizes.
pub fn heap_classes() -> Classes<CLASS_COUNT>
    ensures { result.sizes ≡ SIZES }
{
    CLASSES
}

/// The pools that are kept free for promotion, so that the blocks of all minor areas, with one
/// prepared block for each domain and class, always find room: `domains * (minor_words / 4096 + C)`.
/// `minor_words` is the words of a domain's minor area.
pub fn reserve(domains: u32, minor_words: u32) -> u32
    requires domains { (1 ≤ domains) × (domains ≤ 8) }
    requires minor_words { (4096 ≤ minor_words) × (minor_words ≤ 65536) }
    ensures { result ≡ domains * (minor_words / POOL_WORDS + CLASS_COUNT) }
{
    domains * (minor_words / POOL_WORDS + CLASS_COUNT as u32)
}
