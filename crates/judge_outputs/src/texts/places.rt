//! Keys in registers and slots.
ghost use Rattle.std.specs.Prelude.{◌≡◌, map, IfOk};
ghost use Rattle.std.specs.List.{list_all};
ghost use Rattle.judge_outputs.specs.Texts.Keys.{is_at, is_held, is_kept, left_at};

use model_core::label::Label;
use std::alloc::{AllocError, Global};

// Whether a place holds the key.
fn is_at(place: &Option<Label>, key: Label) -> bool
    ensures { result ≡ is_at key place.now }
{
    match place {
        Some(held) => *held == key,
        None => false,
    }
}

/// Whether one of these places holds the key.
pub(crate) fn is_held(places: &[Option<Label>], key: Label) -> bool
    ensures { result ≡ is_held places.now key }
{
    places.iter().any(|place| is_at(place, key))
}

// Whether these registers hold the key in a place, if it has one.
fn is_kept(registers: &[Option<Label>], place: &Option<Label>) -> bool
    ensures { result ≡ is_kept registers.now place.now }
{
    match place {
        Some(key) => is_held(registers, *key),
        None => true,
    }
}

/// Whether these registers hold all keys in these places.
pub(crate) fn are_kept(registers: &[Option<Label>], places: &[Option<Label>]) -> bool
    ensures { result ≡ list_all (is_kept registers.now) places.now }
{
    places.iter().all(|place| is_kept(registers, place))
}

// What a place holds once the key is gone.
fn left_at(place: &Option<Label>, key: Label) -> Option<Label>
    ensures { result ≡ left_at key place.now }
{
    if is_at(place, key) { None } else { *place }
}

/// What these places hold once the key is gone.
pub(crate) fn without_key(
    alloc: Global,
    places: &[Option<Label>],
    key: Label,
) -> Result<Vec<Option<Label>>, AllocError>
    ensures { IfOk result (λ v. v.items ≡ map (left_at key) places.now) }
{
    let mut left = Vec::new(alloc);
    for place in places {
        left.push(left_at(place, key))?;
    }
    Ok(left)
}
