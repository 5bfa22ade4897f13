//! One player: a seat, and its share of the lines.

ghost use Rattle.std.specs.Prelude.{◌≡◌, ◌<◌, ◌≤◌, All, OnOk, length};
ghost use Rattle.mdb_log.specs.Acts.{IsDriverAct};
ghost use Rattle.mdb_shared_runs.specs.Shares.{lines_of_player};
ghost use Rattle.mdb_shared_runs.specs.Plays.{Adds, HasPlayed};

use crate::gate::LineGate;
use mdb_base::OutOfMemory;
use mdb_log::{Core, Step};
use mdb_shared::{Seat, SharedDriver};
use std::alloc::Global;
use std::sync::Wait;

/// The lines of a script that players share: how many players there are, the steps, each of one player, and the gate that a player calls before each of its own.
#[derive(Clone, Copy)]
pub(crate) struct SharedLines<'a, G: LineGate> {
    pub(crate) players: u32,
    pub(crate) steps: &'a [Step],
    pub(crate) gate: &'a G,
}

/// A player has a number, and the seat of this number.
#[derive(Drop)]
pub struct Player<C: Core> {
    pub number: u32,
    pub seat: Seat<C>,
}

/// A player's seat, and what became of its lines.
#[derive(Drop)]
pub struct Played<C: Core> {
    pub seat: Seat<C>,
    pub done: Result<(), OutOfMemory>,
}

// Does one step.
fn play_line<C: Core, R: Wait>(
    rt: &R,
    alloc: Global,
    driver: &SharedDriver<C>,
    seat: &mut Seat<C>,
    step: &Step,
) -> Result<(), OutOfMemory>
    requires own { seat.old.driver ≡ driver.now.id }
    requires act { IsDriverAct step.now.act }
    ensures same { (seat.new.driver ≡ seat.old.driver) × (seat.new.number ≡ seat.old.number) }
    ensures ok { OnOk result (Adds step.now seat.old seat.new) }
{
    let step = step.clone()?;
    let reply = driver.step(rt, alloc, seat, step)?;
    drop(reply);
    Ok(())
}

// Does the player's lines in order, each behind the gate.
fn play_lines<C: Core, R: Wait, G: LineGate>(
    rt: &R,
    alloc: Global,
    lines: SharedLines<G>,
    driver: &SharedDriver<C>,
    number: u32,
    seat: &mut Seat<C>,
) -> Result<(), OutOfMemory>
    requires own { seat.old.driver ≡ driver.now.id }
    requires number { seat.old.number ≡ number }
    requires acts { All (λ s. IsDriverAct s.act) lines.steps.now }
    requires few { length lines.steps.now ≤ 131072 }
    requires players { 0 < lines.players }
    ensures same { (seat.new.driver ≡ seat.old.driver) × (seat.new.number ≡ seat.old.number) }
    ensures ok { OnOk result (HasPlayed (lines_of_player lines.entry.players number lines.entry.steps.now) seat.old seat.new) }
{
    let mut line = 1u32;
    for step in lines.steps {
        if line % lines.players == number {
            lines.gate.before(number, line);
            play_line(rt, alloc, driver, seat, step)?;
        }
        line += 1;
    }
    Ok(())
}

/// Does what the player is to do, and gives its seat back.
pub(crate) fn play<C: Core, R: Wait, G: LineGate>(
    rt: &R,
    alloc: Global,
    lines: SharedLines<G>,
    driver: &SharedDriver<C>,
    player: Player<C>,
) -> Played<C>
    requires own { player.seat.driver ≡ driver.now.id }
    requires number { player.seat.number ≡ player.number }
    requires acts { All (λ s. IsDriverAct s.act) lines.steps.now }
    requires few { length lines.steps.now ≤ 131072 }
    requires players { 0 < lines.players }
    ensures same { (result.seat.driver ≡ player.seat.driver) × (result.seat.number ≡ player.seat.number) }
    ensures ok { OnOk result.done (HasPlayed (lines_of_player lines.entry.players player.number lines.entry.steps.now) player.seat result.seat) }
{
    let Player { number, mut seat } = player;
    let done = play_lines(rt, alloc, lines, driver, number, &mut seat);
    Played { seat, done }
}
