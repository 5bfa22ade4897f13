//! Rows of a driver on threads. The scenes are written for any core, and one function plays them over a driver of one server.

ghost use Rattle.std.specs.Prelude.{◌≡◌, Some, IfSome};
ghost use Rattle.mdb_topology.specs.Logging.{IsDriverOf};

mod gate;
mod handles;
mod many;
mod seats;
mod watched;

use crate::lines::server;
use crate::opening::pair;
use mdb_base::{Items, ObjectId, Options};
use mdb_log::{Core, Log};
use mdb_shared::{Seat, SharedDriver};
use mdb_topology::TopologyCore;
use mdb_workers::Access;
use std::alloc::Global;
use std::sync::Wait;
use std::thread::Threads;

#[derive(Clone, Copy)]
enum Scene {
    AllSeats,
    Gate,
    LentSeat,
    Requests,
    OutAndIn,
    FirstState,
    News,
}

// The options of a driver of one server, behind a load balancer or not.
fn options(alloc: Global, load_balanced: bool) -> Option<Options> {
    let mut seeds = Vec::new(alloc);
    seeds.push(server(alloc)?).ok()?;
    Some(Options {
        seeds: Items::new(seeds),
        set_name: None,
        direct: false,
        load_balanced,
        max_pool_size: None,
        min_pool_size: None,
        max_connecting: None,
        max_idle_time: None,
        max_wait: None,
        heartbeat: None,
        connect: None,
        streaming: None,
        limit_id: None,
        limit_generation: None,
        limit_pool: None,
        limit_monitor: None,
        topology_id: ObjectId([0; 12]),
    })
}

// The core with its log, where there is one.
fn with_log<C: Drop>(core: Option<C>, log: Log) -> Option<(C, Log)>
    ensures { IfSome result (λ r. (core ≡ Some r.0) × (r.1 ≡ log)) }
{
    match core {
        Some(core) => Some((core, log)),
        None => {
            drop(log);
            None
        }
    }
}

// A driver of these options, with its log.
fn open(alloc: Global, options: Options) -> Option<(TopologyCore, Log)>
    ensures { IfSome result (λ r. IsDriverOf r.0 r.1) }
{
    if options.check().is_some() {
        drop(options);
        return None;
    }
    let mut log = Log::new(alloc);
    let core = TopologyCore::open_seeds(alloc, &mut log, 0, options).ok();
    with_log(core, log)
}

// A driver of one server, behind a load balancer or not, with its log.
fn opened(alloc: Global, load_balanced: bool) -> Option<(TopologyCore, Log)>
    ensures { IfSome result (λ r. IsDriverOf r.0 r.1) }
{
    open(alloc, options(alloc, load_balanced)?)
}

// Whether the scene of two seats on one thread goes as it should.
fn act<C: Core, R: Wait>(
    access: &Access<'_, C, R>,
    first: &mut Seat<C>,
    second: &mut Seat<C>,
    scene: Scene,
) -> bool
    requires own { (first.old.driver ≡ access.now.driver.now.id) × (second.old.driver ≡ access.now.driver.now.id) }
{
    match scene {
        Scene::OutAndIn => watched::goes_out_and_in(access, first, second),
        Scene::FirstState => watched::tells_the_state(access, first),
        Scene::News => watched::waits_for_news(access, first, second),
        _ => seats::tells_once(access, first, second),
    }
}

// One thread has both seats.
fn play_alone<C: Core, R: Wait>(
    rt: &R,
    alloc: Global,
    driver: SharedDriver<C>,
    mut first: Seat<C>,
    mut second: Seat<C>,
    scene: Scene,
) -> bool
    requires own { (first.driver ≡ driver.id) × (second.driver ≡ driver.id) }
{
    let access = Access {
        driver: &driver,
        rt,
        alloc,
    };
    let is_well = act(&access, &mut first, &mut second, scene);
    drop(access);
    drop(first);
    drop(second);
    drop(driver);
    is_well
}

// Whether the scene of two seats goes as it should.
fn play_pair<C: Core, R: Threads + Wait + Sync>(
    rt: &R,
    alloc: Global,
    core: C,
    log: Log,
    scene: Scene,
) -> bool
    requires { C.stands core log }
{
    let Some((driver, first, second)) = pair(alloc, core, log) else {
        return false;
    };
    match scene {
        Scene::Gate => gate::has_no_turn(rt, alloc, driver, first, second),
        Scene::LentSeat => handles::goes_on(rt, alloc, driver, first, second),
        _ => play_alone(rt, alloc, driver, first, second, scene),
    }
}

// Whether the scene goes as it should over this driver.
fn play<C: Core, R: Threads + Wait + Sync>(
    rt: &R,
    alloc: Global,
    opened: Option<(C, Log)>,
    scene: Scene,
) -> bool
    requires { IfSome opened (λ r. C.stands r.0 r.1) }
{
    let Some((core, log)) = opened else {
        return false;
    };
    match scene {
        Scene::AllSeats => many::takes_turns(rt, alloc, core, log),
        _ => play_pair(rt, alloc, core, log, scene),
    }
}

// Whether the scene goes as it should over a new driver.
fn goes_well<R: Threads + Wait + Sync>(rt: &R, alloc: Global, scene: Scene) -> bool {
    let is_balanced = !matches!(scene, Scene::LentSeat);
    play(rt, alloc, opened(alloc, is_balanced), scene)
}
