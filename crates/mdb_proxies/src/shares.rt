//! The shares of tenants.

ghost use Rattle.std.specs.Prelude.{◌≡◌, ◌≤◌, ◌&&◌, nat_lt, nat_le, length, sum};
ghost use Rattle.std.specs.List.{list_all};
ghost use Rattle.mdb_proxies.specs.Shares.{are_shares};

use thiserror::Error;

/// Why a proxy isn't made.
#[derive(Debug, Drop, Error)]
pub enum ShareError {
    /// There is no share, there are more than 64, one is 0, or they are more in all than the pool has.
    #[error("the shares don't fit the pool")]
    Shares,
    #[error("out of memory")]
    OutOfMemory,
}

fn is_few(shares: &[u32]) -> bool
    ensures { result ≡ (nat_lt 0 (length shares.now) && nat_le (length shares.now) 64) }
{
    !shares.is_empty() && shares.len() <= 64
}

fn is_some_each(shares: &[u32]) -> bool
    ensures { result ≡ list_all (λ n. nat_lt 0 n) shares.now }
{
    shares.iter().all(|share| *share > 0)
}

fn sum_of(shares: &[u32]) -> u64
    requires { length shares.now ≤ 64 }
    ensures { result ≡ sum shares.now }
{
    let mut sum = 0u64;
    for share in shares {
        sum += *share as u64;
    }
    sum
}

// The shares are those of 1 to 64 tenants, each with some of it, and no more in all than the pool has.
pub fn are_shares(shares: &[u32], max: u32) -> bool
    ensures { result ≡ are_shares shares.now max }
{
    if !is_few(shares) {
        return false;
    }
    if !is_some_each(shares) {
        return false;
    }
    sum_of(shares) <= max as u64
}
