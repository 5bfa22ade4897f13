//! A shared driver over a running total. The scenes are written for any core, and one function plays them over a total.

ghost use Rattle.std.specs.Prelude.{◌≡◌, [], IfSome};

mod calls;
mod sharing;

use crate::opening::pair;
use mdb_log::{Core, Log};
use mdb_total::Total;
use std::alloc::Global;
use std::sync::Wait;
use std::thread::Threads;

#[derive(Clone, Copy)]
enum Scene {
    NoPool,
    Polls,
    ComeBack,
    Closing,
    TwoThreads,
    AllSeats,
}

// Whether the scene of two seats goes as it should over this core. None where there was no memory for it.
fn play_pair<C: Core, R: Threads + Wait + Sync>(
    rt: &R,
    alloc: Global,
    core: C,
    scene: Scene,
) -> Option<bool>
    requires { C.stands core [] }
{
    let (driver, first, second) = pair(alloc, core, Log::new(alloc))?;
    match scene {
        Scene::Polls => calls::tells_how_requests_stand(rt, alloc, driver, first, second),
        Scene::ComeBack => calls::gives_back(rt, alloc, driver, first, second),
        Scene::Closing => calls::closes_late(rt, alloc, driver, first, second),
        _ => sharing::adds_by_two(rt, alloc, driver, first, second),
    }
}

// Whether the scene goes as it should over this core. None where there was no memory for it.
fn play<C: Core, R: Threads + Wait + Sync>(
    rt: &R,
    alloc: Global,
    core: Option<C>,
    scene: Scene,
) -> Option<bool>
    requires { IfSome core (λ c. C.stands c []) }
{
    let core = core?;
    match scene {
        Scene::NoPool => calls::has_no_pool(alloc, core),
        Scene::AllSeats => sharing::goes_round_twice(alloc, core),
        _ => play_pair(rt, alloc, core, scene),
    }
}

// Whether the scene goes as it should over a new total.
fn goes_well<R: Threads + Wait + Sync>(rt: &R, alloc: Global, scene: Scene) -> Option<bool> {
    play(rt, alloc, Total::new(alloc).ok(), scene)
}
