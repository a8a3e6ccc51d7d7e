// Which sections are spawned, as the reader goes on.
ghost use Rattle.std.specs.Prelude.{◌≡◌, false, slice_index_or};
ghost use Rattle.text_script.specs.Spawning.{Place, start, opened, called, may_begin as may_begin_at, may_follow as may_follow_at, spawns_well as spawns_well_at};
ghost use Rattle.text_script.specs.Steps.{Knows, IsInside};

use crate::version::Version;
use model_core::command::Command;

// For each section, whether a spawn so far names it, and whether one of the section that is being read does.
#[derive(Drop)]
pub(crate) struct Spawns {
    named: [bool; 8],
    own: [bool; 8],
}

// Whether a section is marked.
fn is_marked(marks: &[bool; 8], section: usize) -> bool
    ensures { result ≡ slice_index_or marks.now section false }
{
    section < 8 && marks[section]
}

impl Spawns {
    pub(crate) fn new() -> Spawns
        ensures { Knows result.named result.own start }
    {
        Spawns {
            named: [false; 8],
            own: [false; 8],
        }
    }

    // Whether the next section, which has this number, may begin.
    pub(crate) fn may_begin(&self, version: Version, section: usize) -> bool
        ensures { (p : Place) → Knows self.now.named self.now.own p → section ≡ p.headings → result ≡ may_begin_at version p }
    {
        match version {
            Version::One | Version::Two => true,
            Version::Three => section == 0 || is_marked(&self.named, section),
        }
    }

    // A section begins.
    pub(crate) fn open(&mut self)
        ensures { (p : Place) → Knows self.old.named self.old.own p → Knows self.new.named self.new.own (opened p) }
    {
        self.own = [false; 8];
    }

    // Whether a command may stand behind so many headings.
    pub(crate) fn may_follow(&self, version: Version, headings: usize, command: Command) -> bool
        ensures { (p : Place) → Knows self.now.named self.now.own p → headings ≡ p.headings → result ≡ may_follow_at version p command }
    {
        match version {
            Version::One | Version::Two => true,
            Version::Three => self.spawns_well(headings, command),
        }
    }

    fn spawns_well(&self, headings: usize, command: Command) -> bool
        ensures { (p : Place) → Knows self.now.named self.now.own p → headings ≡ p.headings → result ≡ spawns_well_at p command }
    {
        match command {
            Command::Spawn { section, .. } => {
                headings <= section as usize && !is_marked(&self.named, section as usize)
            }
            Command::Join { section, .. } => is_marked(&self.own, section as usize),
            _ => true,
        }
    }

    // A command is added to the section that is being read.
    pub(crate) fn call(&mut self, command: Command)
        requires { IsInside command }
        ensures { (p : Place) → Knows self.old.named self.old.own p → Knows self.new.named self.new.own (called p command) }
    {
        if let Command::Spawn { section, .. } = command {
            self.named[section as usize] = true;
            self.own[section as usize] = true;
        }
    }
}
