//! The books of a proxy: all asks in their order, those that are standing, and where each stands by its number.

ghost use Rattle.std.specs.Prelude.{◌≡◌, ◌<◌, ◌++◌, ◌∷◌, [], List, false, not, ◌&&◌, ◌||◌, nat_lt, length, get_or, IfSome};
ghost use Rattle.std.specs.List.{list_any, HoldsAt};
ghost use Rattle.mdb_log.specs.Driver.{is_refusal};
ghost use Rattle.mdb_proxies.specs.Shares.{share_of};
ghost use Rattle.mdb_proxies.specs.Charge.{requests, returns, is_end, ends, settles};
ghost use Rattle.mdb_proxies.specs.declared.asked.Standing.{Standing as StandingRecord};
ghost use Rattle.mdb_proxies.specs.Standings.{standing_at, charged_at, held_at, charge_in, AreCounted};
ghost use Rattle.mdb_proxies.specs.Tables.{IsBest, fate_of};

use crate::asked::{Asked, Note, Standing};
use crate::standings::StandingAsks;
use mdb_base::ServerAddress;
use mdb_events::Fact;
use mdb_log::{Act, Entry, Reply};
use std::collections::HashMap;

#[derive(Drop)]
pub struct Books {
    pub asks: Vec<Asked>,
    // Those that are held back or charged, in the order of the asks.
    pub standing: StandingAsks,
    // What became of each, in the order of the asks.
    pub notes: Vec<Note>,
    // The place of an ask in the list of all, by its number.
    pub known: HashMap<u32, usize>,
}

// What an entry makes of a standing ask.
#[derive(Clone, Copy)]
pub enum Fate {
    Stays,
    Charged,
    Gone,
}

pub fn is_standing_at(standing: &Standing, tenant: u32, address: &ServerAddress) -> bool
    ensures { result ≡ standing_at tenant address.now standing.now }
{
    standing.tenant == tenant && standing.address.is(address)
}

fn is_charged_at(standing: &Standing, tenant: u32, address: &ServerAddress) -> bool
    ensures { result ≡ charged_at tenant address.now standing.now }
{
    is_standing_at(standing, tenant, address) && !standing.held
}

pub fn is_held_at(standing: &Standing, tenant: u32, address: &ServerAddress) -> bool
    ensures { result ≡ held_at tenant address.now standing.now }
{
    is_standing_at(standing, tenant, address) && standing.held
}

// How many of the tenant's asks at the address are charged.
pub fn charge(standing: &[Standing], tenant: u32, address: &ServerAddress) -> usize
    ensures { result ≡ charge_in standing.now tenant address.now }
{
    standing
        .iter()
        .filter(|x| is_charged_at(x, tenant, address))
        .count()
}

// Some ask of the tenant is held back at the address.
pub fn holds_back(standing: &[Standing], tenant: u32, address: &ServerAddress) -> bool
    ensures { result ≡ list_any (held_at tenant address.now) standing.now }
{
    standing.iter().any(|x| is_held_at(x, tenant, address))
}

pub fn share_of(shares: &[u32], tenant: u32) -> usize
    ensures { result ≡ share_of shares.now tenant }
{
    match shares.get(tenant as usize) {
        Some(share) => *share as usize,
        None => 0,
    }
}

// The ask may be handed on, where its tenant has this charge at its address.
fn may_go(shares: &[u32], one: &Standing, charge: usize) -> bool
    ensures { result ≡ (one.now.held && nat_lt charge (share_of shares.now one.now.tenant)) }
{
    one.held && charge < share_of(shares, one.tenant)
}

// The charge that is counted beside the ask at this place.
fn count_at(charges: &[usize], at: usize) -> usize
    requires { at < length charges.now }
    ensures { result ≡ get_or charges.now at result }
{
    charges[at]
}

// The better of the best place so far and of one more: where the ask there may go, and its tenant has a lesser number.
fn better(
    shares: &[u32],
    standing: &[Standing],
    charges: &[usize],
    best: Option<usize>,
    at: usize,
) -> Option<usize>
    requires counted { AreCounted standing.now charges.now }
    requires at { at < length standing.now }
    requires best { IfSome best (λ b. b < length standing.now) }
    ensures { HoldsAt (λ o. (ps : List StandingRecord) → IsBest shares.now standing.now ps best → IsBest shares.now standing.now (ps ++ o ∷ []) result) standing.now at }
{
    let one = &standing[at];
    match best {
        Some(best) => {
            if standing[best].tenant <= one.tenant {
                return Some(best);
            }
        }
        None => {}
    }
    let charge = count_at(charges, at);
    if may_go(shares, one, charge) {
        Some(at)
    } else {
        best
    }
}

// The place of the next standing ask to hand on: the first one of the tenant with the least number.
pub fn best_of_all(shares: &[u32], standing: &[Standing], charges: &[usize]) -> Option<usize>
    requires { AreCounted standing.now charges.now }
    ensures { IsBest shares.now standing.now standing.now result }
{
    let mut best: Option<usize> = None;
    for at in 0..standing.len() {
        best = better(shares, standing, charges, best, at);
    }
    best
}

fn is_request_of(act: &Act, request: u32) -> bool
    ensures { result ≡ requests request act.now }
{
    match act {
        Act::Request(r, _) => *r == request,
        _ => false,
    }
}

fn is_return_of(act: &Act, request: u32) -> bool
    ensures { result ≡ returns request act.now }
{
    match act {
        Act::Return(r, _) => *r == request,
        _ => false,
    }
}

pub fn is_refused(reply: &Reply) -> bool
    ensures { result ≡ is_refusal reply.now }
{
    match reply {
        Reply::Refused(_) => true,
        _ => false,
    }
}

fn is_end_of(fact: &Fact, request: u32) -> bool
    ensures { result ≡ is_end request fact.now }
{
    match fact {
        Fact::Ended(r, _) => *r == request,
        _ => false,
    }
}

fn is_ended_by(facts: &[Fact], request: u32) -> bool
    ensures { result ≡ ends request facts.now }
{
    facts.iter().any(|fact| is_end_of(fact, request))
}

fn is_settled_by(entry: &Entry, request: u32) -> bool
    ensures { result ≡ settles request entry.now }
{
    !is_refused(&entry.reply)
        && (is_return_of(&entry.step.act, request) || is_ended_by(entry.facts.as_slice(), request))
}

pub fn fate_by(standing: &Standing, entry: &Entry) -> Fate
    ensures { result ≡ fate_of entry.now standing.now }
{
    let request = standing.request;
    if !standing.held {
        return if is_settled_by(entry, request) {
            Fate::Gone
        } else {
            Fate::Stays
        };
    }
    if !is_request_of(&entry.step.act, request) {
        Fate::Stays
    } else if is_refused(&entry.reply) || is_ended_by(entry.facts.as_slice(), request) {
        Fate::Gone
    } else {
        Fate::Charged
    }
}
