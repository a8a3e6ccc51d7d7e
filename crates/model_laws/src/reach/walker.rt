//! What a search needs of a domain.
ghost use Rattle.std.specs.Prelude.{◌≡◌, ◌<◌, ℕ, List, None, false, IfSome, IsTrue};
ghost use Rattle.model_core.specs.declared.entry.Entry.{Entry};
ghost use Rattle.model_core.specs.declared.entry.Entry.TheVariants.{Command as CommandOf};
ghost use Rattle.model_core.specs.declared.reply.Applied.TheVariants.{Replied};
ghost use Rattle.model_core.specs.declared.state.Sizes.{Sizes};
ghost use Rattle.model_core.specs.Commands.{shown};
ghost use Rattle.model_core.specs.Domains.{IsWithinLimits, register};
ghost use Rattle.model_core.specs.Fronts.{Answers};
ghost use Rattle.model_laws.specs.Reach.Walks.{is_walk, state_of};

use model_core::command::Command;
use model_core::reply::Reply;

/// A domain whose commands are made at once, or not at all.
pub trait Walker {
    /// What the heap is.
    type Home;

    /// The heap of the domain.
    ghost home: { Self → Self.Home };

    /// The numbers of the heap.
    ghost sizes: { Self → Sizes };

    /// The number of the domain.
    ghost number: { Self → ℕ };

    /// The history as far as the domain has seen it.
    ghost front: { Self → List Entry };

    /// Nothing changes. The numbers of the heap are within their limits.
    fn shows_limits(&self)
        ensures limits { IsWithinLimits (sizes self.now) };

    /// The reply that shows what a register holds. No entry is made.
    fn show(&mut self, r: u8) -> Reply
        requires few { r < 16 }
        ensures home { home self.new ≡ home self.old }
        ensures sizes { sizes self.new ≡ sizes self.old }
        ensures number { number self.new ≡ number self.old }
        ensures front { front self.new ≡ front self.old }
        ensures reply { result ≡ shown (register (state_of (sizes self.old) (front self.old)) (number self.old) r) };

    /// Makes a command by which a search walks, and answers its reply. Where it can't be made at once none is, and no
    /// entry is made.
    fn perform(&mut self, c: Command) -> Option<Reply>
        requires walks { IsTrue (is_walk c) }
        ensures home { home self.new ≡ home self.old }
        ensures sizes { sizes self.new ≡ sizes self.old }
        ensures number { number self.new ≡ number self.old }
        ensures put_off { result ≡ None → front self.new ≡ front self.old }
        ensures made { IfSome result (λ r. Answers (sizes self.old) (number self.old) (front self.old) (front self.new) (CommandOf (number self.old) c false) (Replied r)) };
}
