//! The rule of the table, how seats are cut and joined, and what a step tells.
use crate::config::Config;
use crate::view::{DomainView, View};
use atomic_table::{Join, Play, Split, TableRule};
use std::marker::{Brand, PhantomData};

/// The rule that holds between any two steps.
pub struct Law;

impl TableRule<(), View, Config> for Law {
    ghost use Rattle.heap_rule.specs.Rule.{Rule};
    ghost use Rattle.heap_rule.specs.Views.{first_view};

    ghost holds = { Rule };

    ghost first = { first_view };
}

/// How a seat is cut: the new seat stands for the first domain.
pub struct SplitSeat;

impl Split<View> for SplitSeat {
    ghost use Rattle.heap_rule.specs.Views.{cut_left, cut_right};

    ghost left = { cut_left };

    ghost right = { cut_right };
}

/// How two seats are made one, which stands for the domains of both.
pub struct JoinSeat;

impl Join<View> for JoinSeat {
    ghost use Rattle.heap_rule.specs.Views.{joined, spent};

    ghost both = { joined };

    ghost spent = { spent };
}

/// A load at which a seat sees the whole history.
pub struct Learn;

impl Play<(), View> for Learn {
    ghost use Rattle.heap_rule.specs.Ending.{learned};

    ghost then = { learned };
}

/// What one step tells of its domain: the view before, the word found, and the view after. Each
/// step call takes `Brand`, and picks it.
pub trait Told {
    ghost use Rattle.std.specs.Prelude.{ℕ};
    ghost use Rattle.heap_rule.specs.declared.view.DomainView.{DomainView};

    ghost tells: { DomainView → ℕ → DomainView → Type 0 };
}

impl Told for Brand {
    ghost tells = { λ _ _ _. Unit {0} };
}

/// The play of every step call.
pub struct Telling<T> {
    told: PhantomData<T>,
}

impl<T: Told> Play<(), View> for Telling<T> {
    ghost use Rattle.heap_rule.specs.Views.{Plays};

    ghost then = { Plays T.tells };
}

/// What one step of a seat that stands for several domains tells of them: the views before, the word
/// found, and the views after. A call takes `Brand`, and picks it.
pub trait ToldAll {
    ghost use Rattle.std.specs.Prelude.{ℕ, List};
    ghost use Rattle.heap_rule.specs.declared.view.DomainView.{DomainView};

    ghost tells_all: { List DomainView → ℕ → List DomainView → Type 0 };
}

impl ToldAll for Brand {
    ghost tells_all = { λ _ _ _. Unit {0} };
}

/// The play of each such step.
pub struct TellingAll<T> {
    told: PhantomData<T>,
}

impl<T: ToldAll> Play<(), View> for TellingAll<T> {
    ghost use Rattle.heap_rule.specs.Views.{PlaysAll};

    ghost then = { PlaysAll T.tells_all };
}
