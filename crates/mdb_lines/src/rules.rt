//! The rules of the grammar that a step's types don't keep.

ghost use Rattle.std.specs.Prelude.{◌≡◌, IfOk, IsTrue, ◌↔◌, ◌==◌, ◌&&◌};
ghost use Rattle.std.specs.List.{list_all, list_any};
ghost use Rattle.mdb_base.specs.Equality.{same_address};
ghost use Rattle.mdb_base.specs.OptionRules.{all_different, are_seeds};
ghost use Rattle.mdb_base.specs.AddressRule.{is_address};
ghost use Rattle.mdb_lines.specs.Grammar.{is_zero_id, are_options, is_not_negative, is_established, is_hello, is_beaten, is_topology_act, is_step, is_open, is_printable};

use mdb_base::{ObjectId, Options, OutOfMemory, ServerAddress};
use mdb_log::{Act, BeatenResult, Established, HelloResult, Step};
use mdb_parts::is_error;
use mdb_parts::word_rule::is_optional_word;
use mdb_replies::is_reply;
use std::alloc::Global;

fn are_addresses(addresses: &[ServerAddress]) -> bool
    ensures { result ≡ list_all is_address addresses.now }
{
    addresses.iter().all(|a| a.is_regular())
}

fn is_zero_id(id: &ObjectId) -> bool
    ensures { result ≡ is_zero_id id.now }
{
    *id == ObjectId([0; 12])
}

#[tactic(auto, unfolding(crate::specs::Grammar::are_options))]
fn are_options(o: &Options) -> bool
    ensures { result ≡ are_options o.now }
{
    o.check().is_none()
        && are_addresses(o.seeds.as_slice())
        && is_optional_word(&o.set_name)
        && is_zero_id(&o.topology_id)
}

fn is_not_negative(number: Option<i64>) -> bool
    ensures { result ≡ is_not_negative number }
{
    match number {
        None => true,
        Some(number) => 0 <= number,
    }
}

fn is_established(made: &Established) -> bool
    ensures { result ≡ is_established made.now }
{
    0 <= made.wire && is_not_negative(made.server_id)
}

fn has_address(addresses: &[ServerAddress], address: &ServerAddress) -> bool
    ensures { result ≡ list_any (λ a. same_address a address.now) addresses.now }
{
    addresses.iter().any(|a| a.is(address))
}

fn all_different(addresses: &[ServerAddress]) -> bool
    ensures { result ≡ all_different addresses.now }
{
    match addresses {
        [] => true,
        [first, rest @ ..] => !has_address(rest, first) && all_different(rest),
    }
}

fn are_hosts(addresses: &[ServerAddress]) -> bool
    ensures { result ≡ (are_seeds addresses.now && list_all is_address addresses.now) }
{
    let count = addresses.len();
    1 <= count && count <= 128 && all_different(addresses) && are_addresses(addresses)
}

fn is_hello(alloc: Global, came: &HelloResult) -> Result<bool, OutOfMemory>
    ensures { IfOk result (λ keeps. keeps ≡ is_hello came.now) }
{
    match came {
        HelloResult::Ok(_, reply) => is_reply(alloc, reply.get()),
        HelloResult::Err(error) => Ok(is_error(error.get())),
    }
}

fn is_beaten(alloc: Global, came: &BeatenResult) -> Result<bool, OutOfMemory>
    ensures { IfOk result (λ keeps. keeps ≡ is_beaten came.now) }
{
    match came {
        BeatenResult::Ok(reply, _) => is_reply(alloc, reply.get()),
        BeatenResult::Err(error) => Ok(is_error(error.get())),
        BeatenResult::Cancelled(error) => Ok(is_error(error.get())),
    }
}

fn keeps_topology_rules(alloc: Global, act: &Act) -> Result<bool, OutOfMemory>
    ensures { IfOk result (λ keeps. keeps ≡ is_topology_act act.now) }
{
    match act {
        Act::Hello(address, _, came) => {
            let came = is_hello(alloc, came)?;
            Ok(address.is_regular() && came)
        }
        Act::Beaten(address, _, _, came) => {
            let came = is_beaten(alloc, came)?;
            Ok(address.is_regular() && came)
        }
        Act::Beat(address, _) => Ok(address.is_regular()),
        Act::Rtt(address, _, _) => Ok(address.is_regular()),
        Act::Hosts(hosts) => Ok(are_hosts(hosts.as_slice())),
        Act::ClusterTime(_) => Ok(true),
        Act::Want(_) => Ok(true),
        Act::Unwant(_) => Ok(true),
        Act::Stop => Ok(true),
        _ => Ok(false),
    }
}

/// Whether a step keeps the rules of the grammar.
pub(crate) fn keeps_rules(alloc: Global, step: &Step) -> Result<bool, OutOfMemory>
    ensures { IfOk result (λ keeps. keeps ≡ is_step step.now) }
{
    match &step.act {
        Act::Open(o) => Ok(step.moment == 0 && are_options(o.get())),
        Act::Request(_, address) => Ok(address.is_regular()),
        Act::Warm(_, address) => Ok(address.is_regular()),
        Act::Collect(_) => Ok(true),
        Act::Claim => Ok(true),
        Act::GiveUp(_) => Ok(true),
        Act::Established(_, _, made) => Ok(is_established(made)),
        Act::Return(_, _) => Ok(true),
        Act::Pin(_) => Ok(true),
        Act::Replicate(_, _) => Ok(true),
        Act::Take(_, _, _) => Ok(true),
        Act::Unpin(_, _) => Ok(true),
        Act::Maintain(address) => Ok(address.is_regular()),
        Act::Expire(address) => Ok(address.is_regular()),
        Act::Failed(_, _, _, error) => Ok(is_error(error.get())),
        Act::Error(_, error) => Ok(is_error(error.get())),
        act => keeps_topology_rules(alloc, act),
    }
}

/// Whether a step may stand on a line of this number.
pub(crate) fn keeps_place(step: &Step, number: u32) -> bool
    ensures { IsTrue result ↔ (is_open step.now.act ≡ (number == 1)) }
{
    match &step.act {
        Act::Open(_) => number == 1,
        _ => number != 1,
    }
}

/// Whether a line has printable bytes alone.
pub fn is_printable(line: &[u8]) -> bool
    ensures { result ≡ is_printable line.now }
{
    line.iter().all(|b| 32 <= *b && *b <= 126)
}
