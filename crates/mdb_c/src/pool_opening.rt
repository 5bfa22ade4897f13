//! Pools that stand alone, for drivers that keep their own monitors: their options, how one opens, and how its memory is freed.

ghost use Rattle.std.specs.Prelude.{◌≡◌, ◌≢◌, ◌↔◌, Some, None, IfOk};
ghost use Rattle.mdb_base.specs.OptionRules.{is_size};
ghost use Rattle.mdb_log.specs.declared.options.PoolOptions.{PoolOptions as Options};
ghost use Rattle.mdb_pool_session.specs.PoolLogs.{opened};
ghost use Rattle.mdb_c.specs.PoolOpening.{are_pool_options, nameless, pool_options_of};

use mdb_base::{OutOfMemory, ServerAddress};
use mdb_log::PoolOptions;
use mdb_pool_session::{PoolSession, PoolSlot};
use mdb_session::{MALFORMED, NO_MEMORY, OK, OPENED, Status};
use std::alloc::Global;

/// The options of a pool that stands alone (CMAP, "Connection Pool Options").
#[repr(C)]
#[derive(Clone, Copy, Debug, PartialEq, Eq)]
pub struct PoolOptionsNumbers {
    /// After how many milliseconds an available connection is closed, and 0 for no limit.
    pub max_idle: u64,
    /// For how many milliseconds a caller may wait, and 0 for no limit.
    pub max_wait: u64,
    /// The number that replies and facts have of the pool.
    pub number: u32,
    /// How many connections callers make at most, from 1 to 65,535.
    pub max_size: u32,
    /// How many the pool keeps at least, at most 65,535.
    pub min_size: u32,
    /// How many are pending at a time, from 1 to 65,535.
    pub max_connecting: u32,
    /// 1 where the server is a load balancer, 0 else.
    pub load_balanced: u32,
}

fn is_size(size: u32, least: u32) -> bool
    ensures { result ≡ is_size (Some size) least }
{
    least <= size && size <= 65_535
}

fn are_pool_options(options: &PoolOptionsNumbers) -> bool
    ensures { result ≡ are_pool_options options.now }
{
    is_size(options.max_size, 1)
        && is_size(options.min_size, 0)
        && is_size(options.max_connecting, 1)
        && options.load_balanced <= 1
}

fn pool_options_of(options: &PoolOptionsNumbers) -> Option<PoolOptions>
    ensures { result ≡ pool_options_of options.now }
{
    if !are_pool_options(options) {
        return None;
    }
    Some(PoolOptions {
        max_pool_size: Some(options.max_size),
        min_pool_size: Some(options.min_size),
        max_idle_time: Some(options.max_idle),
        max_connecting: Some(options.max_connecting),
        max_wait: Some(options.max_wait),
        load_balanced: options.load_balanced == 1,
        limit_id: u32::MAX,
        limit_generation: u64::MAX,
    })
}

// The address of a pool whose embedder alone knows where it leads.
#[tactic(auto, using(crate::proofs::Nameless::is_nameless))]
fn nameless(alloc: Global) -> Result<ServerAddress, OutOfMemory>
    ensures { IfOk result (λ address. address ≡ nameless) }
{
    let address = ServerAddress::new(String::new(alloc), 0)?;
    Ok(address)
}

// A pool that was just made.
fn opened(alloc: Global, number: u32, options: PoolOptions) -> Result<Box<PoolSession>, OutOfMemory>
    ensures { IfOk result (λ session. session.value ≡ opened number nameless options) }
{
    let address = nameless(alloc)?;
    let session = PoolSession::open(alloc, number, address, options);
    let session = Box::new(alloc, session)?;
    Ok(session)
}

/// Opens a pool in a closed slot (CMAP, "Creating a Connection Pool").
#[unsafe(no_mangle)]
pub extern "C" fn mdb_pool_open(
    alloc: Global,
    slot: &mut PoolSlot,
    options: &PoolOptionsNumbers,
) -> Status
    ensures ok { result ≡ OK → (o : Options) × (pool_options_of options.now ≡ Some o) × (slot.old.word.value ≡ None) × (slot.new.word.value ≡ Some (opened options.now.number nameless o)) }
    ensures other { result ≢ OK → slot.new.word.value ≡ slot.old.word.value }
    ensures malformed { (result ≡ MALFORMED) ↔ (pool_options_of options.now ≡ None) }
    ensures opened { result ≡ OPENED → slot.old.word.value ≢ None }
    ensures answers { result ≢ OK → result ≢ NO_MEMORY → result ≢ MALFORMED → result ≡ OPENED }
{
    let Some(told) = pool_options_of(options) else {
        return MALFORMED;
    };
    if slot.is_open() {
        return OPENED;
    }
    match opened(alloc, options.number, told) {
        Ok(session) => {
            *slot = PoolSlot::holding(session);
            OK
        }
        Err(_) => NO_MEMORY,
    }
}

/// Frees the pool, if there is one, and closes the slot.
#[unsafe(no_mangle)]
pub extern "C" fn mdb_pool_free(alloc: Global, slot: &mut PoolSlot)
    ensures { slot.new.word.value ≡ None }
{
    slot.close(alloc);
}
