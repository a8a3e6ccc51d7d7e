//! The steps of a room. Each is tried a few times.
ghost use Rattle.std.specs.Prelude.{◌≡◌, ◌+◌, true, false, IfErr, IfOk, MatchOption, MatchResult, Some, None};
ghost use Rattle.crossbeam_queue.specs.Passes.{IsPassOf, view};
ghost use Rattle.run_seats.specs.Beds.Bedding.{Finds, HasTaken, KeepsGuest, holding, is_lost, next_bed, one_more, putting, taking, without};

use crate::beds::restful::Restful;
use crate::beds::rule::{Another, Gives, Knows, Law, Puts, Rested, Takes};
use crossbeam_queue::{Pass, RuledArrayQueue};

pub(crate) type Queue<T> = RuledArrayQueue<Rested<T>, Knows<T>, Law<T>>;

// How often a step is tried while another thread is in the way.
const TRIES: u32 = 64;

// Puts a thing to rest. It comes back where others are in the way.
pub(crate) fn put<T: Restful + Drop>(
    queue: &Queue<T>,
    pass: &mut Pass<Rested<T>, Knows<T>>,
    own: Rested<T>,
) -> Result<(), Rested<T>>
    requires queue { IsPassOf queue.now pass.old }
    requires number { own.number ≡ (view pass.old).number }
    requires stamp { own.stamp ≡ (view pass.old).stamp + 1 }
    ensures queue { IsPassOf queue.now pass.new }
    ensures put { MatchResult result (λ _. view pass.new ≡ putting (view pass.old) own) (λ back. (back ≡ own) × (view pass.new ≡ view pass.old)) }
{
    let mut resting = own;
    'tries: for _ in 0..TRIES {
        match queue.try_push_as::<Puts>(pass, resting) {
            Ok(()) => return Ok(()),
            Err(back) => resting = back,
        }
    }
    Err(resting)
}

// Takes a thing out, if one rests and nobody is in the way.
pub(crate) fn take<T: Restful + Drop>(
    queue: &Queue<T>,
    pass: &mut Pass<Rested<T>, Knows<T>>,
) -> Option<Rested<T>>
    requires queue { IsPassOf queue.now pass.old }
    ensures queue { IsPassOf queue.now pass.new }
    ensures took { MatchOption result (view pass.new ≡ view pass.old) (λ x. (view pass.new ≡ taking (view pass.old) x) × Finds T.follows (view pass.old) x) }
{
    queue.try_pop_as::<Takes<T>>(pass)
}

// Puts a thing back that was taken out, maybe further on. It comes back where others are in the way.
pub(crate) fn give<T: Restful + Drop>(
    queue: &Queue<T>,
    pass: &mut Pass<Rested<T>, Knows<T>>,
    taken: Rested<T>,
) -> Result<(), Rested<T>>
    requires queue { IsPassOf queue.now pass.old }
    requires taken { HasTaken T.follows (view pass.old) taken }
    ensures queue { IsPassOf queue.now pass.new }
    ensures gave { MatchResult result (λ _. view pass.new ≡ without (view pass.old)) (λ back. (back ≡ taken) × (view pass.new ≡ view pass.old)) }
{
    let mut resting = taken;
    'tries: for _ in 0..TRIES {
        match queue.try_push_as::<Gives>(pass, resting) {
            Ok(()) => return Ok(()),
            Err(back) => resting = back,
        }
    }
    Err(resting)
}

// The thing, if it was put into this bed as its last. Else it comes back.
fn own_item<T: Drop>(found: Rested<T>, number: u32, stamp: u64) -> Result<T, Rested<T>>
    ensures own { IfOk result (λ x. (x ≡ found.item) × (found.number ≡ number) × (found.stamp ≡ stamp)) }
    ensures other { IfErr result (λ back. back ≡ found) }
{
    if found.number == number && found.stamp == stamp {
        let Rested { item, .. } = found;
        Ok(item)
    } else {
        Err(found)
    }
}

// Takes one thing out: what was put into this bed as its last, or else it is put back, or kept where others are in the way.
fn look<T: Restful + Drop>(
    queue: &Queue<T>,
    pass: &mut Pass<Rested<T>, Knows<T>>,
    number: u32,
    stamp: u64,
) -> Result<T, Option<Rested<T>>>
    requires queue { IsPassOf queue.now pass.old }
    requires number { (view pass.old).number ≡ number }
    requires stamp { (view pass.old).stamp ≡ stamp }
    requires loses { is_lost true number (view pass.old).turns None ≡ false }
    ensures queue { IsPassOf queue.now pass.new }
    ensures same { view pass.new ≡ holding (view pass.old) (view pass.new).turns }
    ensures follows { IfOk result (λ t. (y : T) → (view pass.old).rests ≡ Some y → T.follows y t) }
    ensures guest { IfErr result (KeepsGuest T.follows (view pass.new)) }
    ensures loses { MatchResult result (λ _. is_lost false number (view pass.new).turns None ≡ false) (λ o. is_lost true number (view pass.new).turns o ≡ false) }
{
    let Some(found) = take(queue, pass) else {
        return Err(None);
    };
    match own_item(found, number, stamp) {
        Ok(item) => Ok(item),
        Err(found) => match give(queue, pass, found) {
            Ok(()) => Err(None),
            Err(found) => Err(Some(found)),
        },
    }
}

// Takes out what was put into this bed as its last. It looks at all that may rest.
pub(crate) fn take_own<T: Restful + Drop>(
    queue: &Queue<T>,
    pass: &mut Pass<Rested<T>, Knows<T>>,
    number: u32,
    stamp: u64,
) -> Result<T, Option<Rested<T>>>
    requires queue { IsPassOf queue.now pass.old }
    requires number { (view pass.old).number ≡ number }
    requires stamp { (view pass.old).stamp ≡ stamp }
    requires loses { is_lost true number (view pass.old).turns None ≡ false }
    ensures queue { IsPassOf queue.now pass.new }
    ensures same { view pass.new ≡ holding (view pass.old) (view pass.new).turns }
    ensures follows { IfOk result (λ t. (y : T) → (view pass.old).rests ≡ Some y → T.follows y t) }
    ensures guest { IfErr result (KeepsGuest T.follows (view pass.new)) }
    ensures loses { MatchResult result (λ _. is_lost false number (view pass.new).turns None ≡ false) (λ o. is_lost true number (view pass.new).turns o ≡ false) }
{
    'looks: for _ in 0..TRIES {
        match look(queue, pass, number, stamp) {
            Ok(item) => return Ok(item),
            Err(Some(found)) => return Err(Some(found)),
            Err(None) => {}
        }
    }
    Err(None)
}

// The first bed makes another.
pub(crate) fn another<T: Restful + Drop>(
    queue: &Queue<T>,
    pass: &mut Pass<Rested<T>, Knows<T>>,
) -> Pass<Rested<T>, Knows<T>>
    requires queue { IsPassOf queue.now pass.old }
    requires makes { (view pass.old).makes ≡ true }
    ensures queue { IsPassOf queue.now pass.new × IsPassOf queue.now result }
    ensures made { (view pass.new ≡ one_more (view pass.old)) × (view result ≡ next_bed (view pass.old)) }
{
    queue.another::<Another>(pass)
}
