//! A word of C's memory that keeps a session from one call to the next.
ghost use Rattle.std.specs.Prelude.{◌≡◌, ◌≢◌, List, None, Some, Option};
ghost use Rattle.std.specs.Coded.{codes};
ghost use Rattle.mdb_base.specs.DocumentCode.{fields_coded};
ghost use Rattle.mdb_log.specs.declared.log.Entry.{Entry};
ghost use Rattle.mdb_session.specs.Holding.{held};

use crate::loose::Loose;
use crate::session::Session;
use std::alloc::Global;
use std::marker::Model;
use std::ptr::null_mut;

/// A pointer, which C neither reads nor writes. It owns a session, or nothing. Contracts see the session's log.
#[repr(C)]
#[derive(Drop)]
pub struct Word {
    at: *mut u8,
    alloc: Global,
    pub ghost value: { Option (List Entry) } by { Prim.hlevel (codes, fields_coded) },
}

impl Model for Word {
    ghost also_owns = { λ w. held w.value w.alloc w.at };
}

// What it owns says the same to every thread.
unsafe impl Send for Word {}

impl Word {
    /// A word that owns nothing.
    pub(crate) fn empty(alloc: Global) -> Word
        ensures { result.value ≡ None }
    {
        Word {
            at: null_mut(),
            alloc,
        }
    }

    /// A word that owns the session.
    pub(crate) fn full(session: Loose<Session, Global>) -> Word
        ensures { result.value ≡ Some session.value }
    {
        let Loose { at, alloc } = session;
        Word {
            at: at as *mut u8,
            alloc,
        }
    }

    /// The session that it owns.
    pub(crate) fn into_loose(self) -> Loose<Session, Global>
        requires { self.value ≢ None }
        ensures { self.value ≡ Some result.value }
    {
        let Word { at, alloc } = self;
        Loose {
            at: at as *mut Session,
            alloc,
        }
    }
}
