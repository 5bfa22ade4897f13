//! How often a pool was cleared, by few counts: clears that no connection that lives tells apart are counted together.

ghost use Rattle.std.specs.Prelude.{◌≡◌, ◌<◌, ◌+◌, ◌≤◌, true, find, is_some, if◌then◌else◌, Some, None, IfOk, IfSome, OnOk};
ghost use Rattle.mdb_log.specs.History.{same_service};
ghost use Rattle.std.specs.List.Sorted.{IsStrictlySortedBy};
ghost use Rattle.mdb_pool.specs.Kept.Clearing.{counts_at, parts_at, weigh, AreMarked, JoinsAt, Grown};
ghost use Rattle.mdb_pool_rules.specs.Jobs.{id_order};

use crate::kept::clears::same_service;
use crate::kept::connection::Connection;
use mdb_base::{ObjectId, OutOfMemory};
use mdb_slots::Sides;
use std::alloc::{AllocError, Global};

/// So many clears of the pool, or of one service of it, each after so many connections were created.
#[derive(Clone, Copy)]
pub struct Mark {
    pub service: Option<ObjectId>,
    pub after: u32,
    pub count: u64,
}

/// How often a pool was cleared: for each service and each gap between the connections that live one mark, how many clears that are together, and how many
/// of them were by a network timeout.
#[derive(Drop)]
pub struct Marks {
    pub list: Vec<Mark>,
    pub total: u64,
    pub timeouts: usize,
}

// A connection of this number was created before exactly one of the two moments.
fn parts(a: u32, b: u32, id: u32) -> bool
    ensures { result ≡ parts_at a b id }
{
    if a < id { !(b < id) } else { b < id }
}

// A connection that lives was.
fn told_apart(live: &Sides<Connection>, a: u32, b: u32) -> bool
    ensures { result ≡ is_some (find (λ x. parts_at a b x.id) live.now.now) }
{
    let mut next = live.first();
    while let Some(x) = next {
        if parts(a, b, x.id) {
            return true;
        }
        next = live.next(x.id);
    }
    false
}

// Two moments are the same to all connections that live, and to all that are still to be created.
fn is_one_gap(live: &Sides<Connection>, created: u32, a: u32, b: u32) -> bool
    ensures { result ≡ true → (a ≤ created) × (b ≤ created) × (find (λ x. parts_at a b x.id) live.now.now ≡ None) }
{
    a <= created && b <= created && !told_apart(live, a, b)
}

// The place of a mark that this one may be counted with.
fn place_of(live: &Sides<Connection>, created: u32, marks: &[Mark], mark: &Mark) -> Option<usize>
    ensures { IfSome result (λ at. JoinsAt live.now.now created marks.now mark.now at) }
{
    for at in 0..marks.len() {
        let other = &marks[at];
        if same_service(other.service, mark.service)
            && is_one_gap(live, created, other.after, mark.after)
        {
            return Some(at);
        }
    }
    None
}

// The mark comes last, or is counted with another where no connection tells them apart.
fn add(
    live: &Sides<Connection>,
    created: u32,
    marks: &mut Vec<Mark>,
    mark: Mark,
) -> Result<(), OutOfMemory>
    ensures { OnOk result (Grown live.now.now created marks.old.items mark marks.new.items) }
{
    let Some(at) = place_of(live, created, marks.as_slice(), &mark) else {
        marks.push(mark)?;
        return Ok(());
    };
    let old = marks[at];
    let Some(count) = old.count.checked_add(mark.count) else {
        return Err(OutOfMemory);
    };
    marks[at] = Mark { count, ..old };
    Ok(())
}

// The marks with one clear more, by as few marks as the connections that live need.
fn marked(
    alloc: Global,
    live: &Sides<Connection>,
    created: u32,
    marks: &[Mark],
    service: Option<ObjectId>,
) -> Result<Vec<Mark>, OutOfMemory>
    ensures { IfOk result (λ made. Grown live.now.now created marks.now (record { service = service; after = created; count = 1 }) made.items) }
{
    let mut made = Vec::new(alloc);
    for mark in marks {
        add(live, created, &mut made, *mark)?;
    }
    let mark = Mark {
        service,
        after: created,
        count: 1,
    };
    add(live, created, &mut made, mark)?;
    Ok(made)
}

// The mark is one of the service, and of before the connection was created where one is given.
fn counts(mark: &Mark, service: Option<ObjectId>, before: Option<u32>) -> bool
    ensures { result ≡ counts_at service before mark.now }
{
    match before {
        None => same_service(mark.service, service),
        Some(id) => same_service(mark.service, service) && mark.after < id,
    }
}

// What it adds to their count.
fn part_of(mark: &Mark, service: Option<ObjectId>, before: Option<u32>) -> u64
    ensures { result ≡ (if counts_at service before mark.now then mark.now.count else 0) }
{
    if counts(mark, service, before) {
        mark.count
    } else {
        0
    }
}

// The counts of such marks, where all counts together have a number of the type.
fn sum_of(marks: &[Mark], total: u64, service: Option<ObjectId>, before: Option<u32>) -> u64
    requires { total ≡ weigh (λ m. true) marks.now }
    ensures { result ≡ weigh (counts_at service before) marks.now }
{
    let mut sum = 0u64;
    for mark in marks {
        sum += part_of(mark, service, before);
    }
    sum
}

/// How many clears of the service there were, before the connection was created where one is given.
pub(crate) fn count(marks: &Marks, service: Option<ObjectId>, before: Option<u32>) -> u64
    requires { marks.now.total ≡ weigh (λ m. true) marks.now.list.items }
    ensures { result ≡ weigh (counts_at service before) marks.now.list.items }
{
    sum_of(marks.list.as_slice(), marks.total, service, before)
}

fn one_if(is: bool) -> usize
    ensures { result ≡ (if is then 1 else 0) }
{
    if is { 1 } else { 0 }
}

/// One clear more, of the service or of the pool as a whole, once so many connections were created.
pub(crate) fn with_clear(
    alloc: Global,
    live: &Sides<Connection>,
    created: u32,
    marks: &Marks,
    service: Option<ObjectId>,
    timeout: bool,
) -> Result<Marks, OutOfMemory>
    requires { marks.now.total ≡ weigh (λ m. true) marks.now.list.items }
    ensures list { IfOk result (λ made. Grown live.now.now created marks.now.list.items (record { service = service; after = created; count = 1 }) made.list.items) }
    ensures total { IfOk result (λ made. made.total ≡ weigh (λ m. true) made.list.items) }
    ensures timeouts { IfOk result (λ made. made.timeouts ≡ marks.now.timeouts + (if timeout then 1 else 0)) }
{
    let Some(total) = marks.total.checked_add(1) else {
        return Err(OutOfMemory);
    };
    let Some(timeouts) = marks.timeouts.checked_add(one_if(timeout)) else {
        return Err(OutOfMemory);
    };
    let list = marked(alloc, live, created, marks.list.as_slice(), service)?;
    Ok(Marks {
        list,
        total,
        timeouts,
    })
}

// The services of the marks of before the connection was created.
fn named_before(alloc: Global, marks: &[Mark], id: u32) -> Result<Vec<ObjectId>, AllocError>
    ensures { IfOk result (λ named. AreMarked id marks.now named.items) }
{
    let mut named = Vec::new(alloc);
    for mark in marks {
        if let Some(service) = mark.service
            && mark.after < id
        {
            named.push(service)?;
        }
    }
    Ok(named)
}

/// Each of them once, in the order of the ids.
pub(crate) fn services_before(
    alloc: Global,
    marks: &[Mark],
    id: u32,
) -> Result<Vec<ObjectId>, AllocError>
    ensures ascend { IfOk result (λ services. IsStrictlySortedBy id_order services.items) }
    ensures members { IfOk result (λ services. AreMarked id marks.now services.items) }
{
    let mut services = named_before(alloc, marks, id)?;
    services.sort_unstable();
    services.dedup();
    Ok(services)
}
