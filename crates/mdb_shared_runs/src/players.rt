//! All players, each in a thread of its own.

ghost use Rattle.std.specs.Prelude.{◌≡◌, ◌<◌, ◌≤◌, All, IfOk, OnOk, Ok, map, length};
ghost use Rattle.mdb_log.specs.Acts.{IsDriverAct};
ghost use Rattle.mdb_shared_runs.specs.Shares.{lines_of_player};
ghost use Rattle.mdb_shared_runs.specs.Plays.{HasPlayed, numbered_from, AreFresh, DidAll, IsSharedOn};

use crate::gate::LineGate;
use crate::player::{Played, Player, SharedLines, play};
use mdb_base::OutOfMemory;
use mdb_journal::Journal;
use mdb_log::{Core, Log, Step};
use mdb_shared::{Seat, SharedDriver};
use std::alloc::Global;
use std::sync::Wait;
use std::thread::{Threads, map_vec};

// Each seat with its number.
fn numbered<C: Core>(alloc: Global, seats: Vec<Seat<C>>) -> Result<Vec<Player<C>>, OutOfMemory>
    requires few { length seats.items ≤ 64 }
    ensures { IfOk result (λ players. players.items ≡ numbered_from 0 seats.items) }
{
    let mut players = Vec::new(alloc);
    let mut number = 0u32;
    for seat in seats {
        players.push(Player { number, seat })?;
        number += 1;
    }
    Ok(players)
}

// The seats, where each player did its lines.
fn all_seats<C: Core>(alloc: Global, ended: Vec<Played<C>>) -> Result<Vec<Seat<C>>, OutOfMemory>
    ensures seats { IfOk result (λ seats. seats.items ≡ map (λ r. r.seat) ended.items) }
    ensures all { OnOk result (All (λ r. r.done ≡ Ok tt) ended.items) }
{
    let mut seats = Vec::new(alloc);
    for Played { seat, done } in ended {
        done?;
        seats.push(seat)?;
    }
    Ok(seats)
}

// Each player does its lines in a thread of its own; the seats come back.
fn play_all<C: Core, R: Threads + Wait + Sync, G: LineGate>(
    rt: &R,
    alloc: Global,
    lines: SharedLines<G>,
    driver: &SharedDriver<C>,
    seats: Vec<Seat<C>>,
) -> Result<Vec<Seat<C>>, OutOfMemory>
    requires fresh { AreFresh driver.now.id driver.now.base lines.players seats.items }
    requires acts { All (λ s. IsDriverAct s.act) lines.steps.now }
    requires few { length lines.steps.now ≤ 131072 }
    requires players { (0 < lines.players) × (lines.players ≤ 8) }
    ensures { IfOk result (λ after. DidAll driver.now.id driver.now.base lines.entry.players lines.entry.steps.now after.items) }
{
    let SharedLines {
        players: count,
        steps,
        gate,
    } = lines;
    let players = numbered(alloc, seats)?;
    let ended = map_vec(
        rt,
        players,
        &move |player: Player<C>| -> Played<C>
            requires own { player.seat.driver ≡ driver.now.id }
            requires number { player.seat.number ≡ player.number }
            requires acts { All (λ s. IsDriverAct s.act) steps.now }
            requires few { length steps.now ≤ 131072 }
            requires players { 0 < count }
            ensures same { (result.seat.driver ≡ player.seat.driver) × (result.seat.number ≡ player.seat.number) }
            ensures ok { OnOk result.done (HasPlayed (lines_of_player count player.number steps.entry.now) player.seat result.seat) }
        {
            let lines = SharedLines {
                players: count,
                steps,
                gate,
            };
            play(rt, alloc, lines, driver, player)
        },
    )?;
    all_seats(alloc, ended)
}

// All entries, of which nobody took one.
fn whole(journal: Journal) -> Result<Log, OutOfMemory>
    ensures { IfOk result (λ log. log ≡ journal.all) }
{
    match journal.whole() {
        Ok(log) => Ok(log),
        Err(_) => Err(OutOfMemory),
    }
}

/// The log after the steps, each of which is done by the part of its number.
pub(crate) fn share<C: Core, R: Threads + Wait + Sync, G: LineGate>(
    rt: &R,
    alloc: Global,
    lines: SharedLines<G>,
    core: C,
    log: Log,
) -> Result<Log, OutOfMemory>
    requires stands { C.stands core log }
    requires acts { All (λ s. IsDriverAct s.act) lines.steps.now }
    requires few { length lines.steps.now ≤ 131072 }
    requires players { (0 < lines.players) × (lines.players ≤ 8) }
    ensures { IfOk result (IsSharedOn C.stands lines.entry.players log lines.entry.steps.now) }
{
    let (driver, seats) = SharedDriver::new(alloc, core, log, lines.players)?;
    let seats = play_all(rt, alloc, lines, &driver, seats)?;
    match driver.close(seats) {
        Ok((_core, journal)) => whole(journal),
        Err(_) => unreachable!(),
    }
}
