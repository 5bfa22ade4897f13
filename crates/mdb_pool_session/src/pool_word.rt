//! A word of C's memory that keeps a pool from one call to the next.

ghost use Rattle.std.specs.Prelude.{◌≡◌, ◌≢◌, None, Some, Option};
ghost use Rattle.std.specs.Coded.{codes};
ghost use Rattle.mdb_base.specs.DocumentCode.{fields_coded};
ghost use Rattle.mdb_pool_session.specs.PoolLogs.{PoolLog};
ghost use Rattle.mdb_pool_session.specs.Holding.{held};

use crate::loose::Loose;
use crate::pool_session::PoolSession;
use std::alloc::Global;
use std::marker::Model;
use std::ptr::null_mut;

/// A pointer, which C neither reads nor writes. It owns a pool, or nothing. Contracts see the pool and its log.
#[repr(C)]
#[derive(Drop)]
pub struct PoolWord {
    at: *mut u8,
    alloc: Global,
    pub ghost value: { Option PoolLog } by { Prim.hlevel (codes, fields_coded) },
}

impl Model for PoolWord {
    ghost also_owns = { λ w. held w.value w.alloc w.at };
}

// What it owns says the same to every thread.
unsafe impl Send for PoolWord {}

impl PoolWord {
    /// A word that owns nothing.
    pub(crate) fn empty(alloc: Global) -> PoolWord
        ensures { result.value ≡ None }
    {
        PoolWord {
            at: null_mut(),
            alloc,
        }
    }

    /// A word that owns the pool.
    pub(crate) fn full(session: Loose<PoolSession, Global>) -> PoolWord
        ensures { result.value ≡ Some session.value }
    {
        let Loose { at, alloc } = session;
        PoolWord {
            at: at as *mut u8,
            alloc,
        }
    }

    /// The pool that it owns.
    pub(crate) fn into_loose(self) -> Loose<PoolSession, Global>
        requires { self.value ≢ None }
        ensures { self.value ≡ Some result.value }
    {
        let PoolWord { at, alloc } = self;
        Loose {
            at: at as *mut PoolSession,
            alloc,
        }
    }
}
