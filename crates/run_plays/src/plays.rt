//! Plays of all domains of a heap.
ghost use Rattle.std.specs.Prelude.{◌≡◌, ◌↔◌, ◌<◌, ◌≤◌, ℕ, Err, IfOk, Some, [], length, map, vec_capacity, vec_len};
ghost use Rattle.heap_rule.specs.declared.config.StartFault.TheVariants as fault;
ghost use Rattle.heap_rule.specs.Limits.{first_outside, sizes_in};
ghost use Rattle.run_plays.specs.Plays.{AreLogsOf, AreNew, AreSeats, AreSizesOf, IsOneHistory, run_seat, seat_of};

use crate::log::Log;
use crate::moves::{Client, Move, Told};
use crate::player::Player;
use heap_rule::{Config, StartFault};
use run_joined::one_history;
use run_seats::shared::{SharedRun, make_all};
use std::alloc::{AllocError, Global};
use std::marker::Model;

// A player, whoever chooses for it, and what its last move came to.
#[derive(Drop)]
struct Chair<C: Client + Drop> {
    player: Player,
    client: C,
    told: Told,
}

// Makes a move of a player.
fn make(player: &mut Player, next: Move) -> Result<Told, AllocError>
    ensures seat { seat_of player.new ≡ seat_of player.old }
{
    Ok(match next {
        Move::Call(command) => Told::Called(player.call(command)?),
        Move::Turn => {
            let (came, reply) = player.turn()?;
            Told::Turned(came, reply)
        }
        Move::Take => Told::Took(player.take()?),
        Move::Show(register) => Told::Shown(player.show(register)),
        Move::Close => Told::Closed(player.close().err()),
        Move::Pass => Told::Nothing,
    })
}

// Makes the move that whoever plays chooses.
fn play_one<C: Client + Drop>(chair: &mut Chair<C>) -> Result<(), AllocError>
    ensures seat { seat_of chair.new.player ≡ seat_of chair.old.player }
{
    let next = chair.client.next(chair.told);
    chair.told = make(&mut chair.player, next)?;
    Ok(())
}

// One move of each, in order.
fn play_round<C: Client + Drop>(chairs: &mut Vec<Chair<C>>) -> Result<(), AllocError>
    ensures seats { map (λ c. seat_of c.player) chairs.new.items ≡ map (λ c. seat_of c.player) chairs.old.items }
{
    for i in 0..chairs.len() {
        play_one(&mut chairs[i])?;
    }
    Ok(())
}

/// What a play leaves: one legal history of all domains, which has of each just what its log says.
#[derive(Drop)]
pub struct Played {
    run: SharedRun,
    logs: Vec<Log>,
}

impl Model for Played {
    ghost use Rattle.heap_rule.specs.Limits.{sizes_in};
    ghost use Rattle.run_plays.specs.Plays.{PlayedView};

    ghost Value = { PlayedView };

    ghost view = { λ p. record { sizes = sizes_in p.run.heap.config; history = p.run.run.token.view.seen.front; logs = p.logs.items } };
}

impl Played {
    /// The log of each domain's player, in order.
    pub fn logs(&self) -> &[Log]
        ensures { result.now ≡ self.now.logs }
    {
        &self.logs
    }
}

// A player for each domain that has made no entry, and whoever chooses for it.
fn seat_all<C: Client + Drop>(
    alloc: Global,
    runs: Vec<SharedRun>,
    clients: Vec<C>,
) -> Result<Vec<Chair<C>>, AllocError>
    requires new { AreNew runs.items }
    requires one_each { vec_len clients ≡ vec_len runs }
    ensures seats { IfOk result (λ v. map (λ c. seat_of c.player) v.items ≡ map run_seat runs.items) }
{
    let mut clients = clients;
    let mut chairs = Vec::with_capacity(alloc, runs.len())?;
    for run in runs {
        let client = clients.remove(0);
        chairs.push_reserved(Chair {
            player: Player::of(alloc, run),
            client,
            told: Told::Nothing,
        });
    }
    Ok(chairs)
}

// The domains of the players, and their logs, once all finalisers that wait are taken.
fn part_all<C: Client + Drop>(
    chairs: Vec<Chair<C>>,
    runs: &mut Vec<SharedRun>,
    logs: &mut Vec<Log>,
) -> Result<(), AllocError>
    requires none { (runs.old.items ≡ []) × (logs.old.items ≡ []) }
    requires room { (vec_len chairs ≤ vec_capacity runs.old) × (vec_len chairs ≤ vec_capacity logs.old) }
    ensures seats { IfOk result (λ _. map run_seat runs.new.items ≡ map (λ c. seat_of c.player) chairs.items) }
    ensures logs { IfOk result (λ _. AreLogsOf logs.new.items runs.new.items) }
{
    for chair in chairs {
        let (run, log) = chair.player.into_parts()?;
        runs.push_reserved(run);
        logs.push_reserved(log);
    }
    Ok(())
}

// Brings all domains together at the end.
fn end_play<C: Client + Drop>(alloc: Global, chairs: Vec<Chair<C>>) -> Result<Played, AllocError>
    requires seats { AreSeats (map (λ c. seat_of c.player) chairs.items) }
    requires some { 0 < vec_len chairs }
    ensures sizes { IfOk result (λ p. AreSizesOf (map (λ c. seat_of c.player) chairs.items) p.sizes) }
    ensures count { IfOk result (λ p. length p.logs ≡ vec_len chairs) }
    ensures one { IfOk result (λ p. IsOneHistory p) }
{
    let mut runs = Vec::with_capacity(alloc, chairs.len())?;
    let mut logs = Vec::with_capacity(alloc, chairs.len())?;
    part_all(chairs, &mut runs, &mut logs)?;
    one_history(alloc, &mut runs)?;
    let Some(run) = runs.pop() else {
        unreachable!()
    };
    Ok(Played { run, logs })
}

/// A heap of this size, whose domains are played by these clients in one hand, a move each in every round, for so many
/// rounds. At the end all finalisers that wait are taken.
///
/// Whatever the clients choose, there is one legal history of the heap that has of each domain just what its log says:
/// each command that was made, once and in order, with the reply that was read, and each finaliser that ran.
/// `Config(k)` names the first of the heap's numbers outside its limit; else want of memory alone refuses.
pub fn plays_by_turns<C: Client + Drop>(
    alloc: Global,
    config: Config,
    clients: Vec<C>,
    rounds: usize,
) -> Result<Played, StartFault>
    requires one_each { vec_len clients ≡ config.domains }
    ensures outside { (k : ℕ) → (result ≡ Err (fault.Config k)) ↔ (first_outside config ≡ Some k) }
    ensures sizes { IfOk result (λ p. p.sizes ≡ sizes_in config) }
    ensures count { IfOk result (λ p. length p.logs ≡ config.domains) }
    ensures one { IfOk result (λ p. IsOneHistory p) }
{
    let runs = make_all(alloc, config)?;
    let mut chairs = seat_all(alloc, runs, clients)?;
    for _ in 0..rounds {
        play_round(&mut chairs)?;
    }
    Ok(end_play(alloc, chairs)?)
}
