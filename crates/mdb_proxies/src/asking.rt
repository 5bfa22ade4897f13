//! What tenants ask of a proxy.

ghost use Rattle.std.specs.Prelude.{◌≡◌, ℕ, ◌+◌, ◌-◌, ◌<◌, List, [], ◌∷◌, ◌++◌, true, false, length, Some, None, IfOk, OnErr, if◌then◌else◌};
ghost use Rattle.mdb_proxies.specs.declared.asked.Asked.{Asked as AskedRecord};
ghost use Rattle.mdb_proxies.specs.declared.step.ProxyReply.TheVariants.{Core as Tells, Held as IsHeld};
ghost use Rattle.mdb_proxies.specs.Entries.{GoesOn, Enters, request_at};
ghost use Rattle.mdb_proxies.specs.Recording.{Recorded, Begun};
ghost use Rattle.mdb_proxies.specs.Replies.{Replies, with_ask};
ghost use Rattle.mdb_proxies.specs.Tables.{Sound, some_may_go, is_off_in, is_fresh};

use crate::asked::Asked;
use crate::books::{charge, holds_back, is_refused, share_of};
use crate::handing::ProxyState;
use crate::step::ProxyReply;
use crate::told::tells;
use mdb_base::{Moment, OutOfMemory, ServerAddress};
use mdb_log::Core;
use std::alloc::Global;

impl<C: Core> ProxyState<C> {
    // The ask that was just recorded is handed on at once.
    fn begin(&mut self, alloc: Global, moment: Moment) -> Result<ProxyReply, OutOfMemory>
        requires stands { C.stands self.old.core self.old.log }
        requires recorded { Recorded self.old.log self.old.shares.items self.old.books false self.old.behind }
        ensures stands { C.stands self.new.core self.new.log }
        ensures sound { Sound self.new.log self.new.shares.items self.new.books }
        ensures shares { self.new.shares ≡ self.old.shares }
        ensures behind { self.new.behind ≡ some_may_go self.new.shares.items self.new.books.standing.items }
        ensures ok { IfOk result (λ reply. (xs : List AskedRecord) (x : AskedRecord) → self.old.books.asks.items ≡ xs ++ x ∷ [] → Begun moment self.old.shares.items xs x self.old.log self.new.log self.new.books.asks.items reply None) }
        ensures err { OnErr result ((self.new.log ≡ self.old.log) × ((xs : List AskedRecord) (x : AskedRecord) → self.old.books.asks.items ≡ xs ++ x ∷ [] → self.new.books.asks.items ≡ xs)) }
    {
        let handed = self.hand_on_newest(alloc, moment);
        let (reply, freed) = match handed {
            Ok(handed) => handed,
            Err(OutOfMemory) => {
                self.books.take_back();
                return Err(OutOfMemory);
            }
        };
        if is_refused(&reply) {
            self.books.forget();
            drop(freed);
            return Ok(ProxyReply::Core(reply));
        }
        let told = tells(&reply);
        self.books.tell_newest(told);
        let freed = freed.or_anywhere(self.behind);
        self.go_on(alloc, moment, freed);
        Ok(ProxyReply::Core(reply))
    }

    // The ask that was just recorded is held back.
    fn hold(&mut self, alloc: Global, moment: Moment) -> Result<ProxyReply, OutOfMemory>
        requires stands { C.stands self.old.core self.old.log }
        requires recorded { Recorded self.old.log self.old.shares.items self.old.books true self.old.behind }
        ensures stands { C.stands self.new.core self.new.log }
        ensures sound { Sound self.new.log self.new.shares.items self.new.books }
        ensures shares { self.new.shares ≡ self.old.shares }
        ensures behind { self.new.behind ≡ some_may_go self.new.shares.items self.new.books.standing.items }
        ensures ok { IfOk result (λ reply. (xs : List AskedRecord) (x : AskedRecord) → self.old.books.asks.items ≡ xs ++ x ∷ [] → Begun moment self.old.shares.items xs x self.old.log self.new.log self.new.books.asks.items reply (Some IsHeld)) }
        ensures err { OnErr result ((self.new.log ≡ self.old.log) × ((xs : List AskedRecord) (x : AskedRecord) → self.old.books.asks.items ≡ xs ++ x ∷ [] → self.new.books.asks.items ≡ xs)) }
    {
        match self.catch_up(alloc, moment) {
            Ok(()) => Ok(ProxyReply::Held),
            Err(OutOfMemory) => {
                self.books.take_back();
                Err(OutOfMemory)
            }
        }
    }

    // The rules hold a new ask of the tenant back.
    fn is_off(&self, tenant: u32, address: &ServerAddress) -> bool
        ensures { result ≡ is_off_in self.now.shares.items self.now.books.standing.items tenant address.now }
    {
        let standing = self.books.standing.as_slice();
        charge(standing, tenant, address) >= share_of(self.shares.as_slice(), tenant)
            || holds_back(standing, tenant, address)
    }

    pub fn ask(
        &mut self,
        alloc: Global,
        moment: Moment,
        ask: Asked,
    ) -> Result<ProxyReply, OutOfMemory>
        requires fresh { is_fresh ask.request self.old.books.asks.items ≡ true }
        requires made { ask.entries ≡ length self.old.log }
        requires stands { C.stands self.old.core self.old.log }
        requires sound { Sound self.old.log self.old.shares.items self.old.books }
        requires behind { self.old.behind ≡ some_may_go self.old.shares.items self.old.books.standing.items }
        ensures stands { C.stands self.new.core self.new.log }
        ensures sound { Sound self.new.log self.new.shares.items self.new.books }
        ensures shares { self.new.shares ≡ self.old.shares }
        ensures behind { self.new.behind ≡ some_may_go self.new.shares.items self.new.books.standing.items }
        ensures ok { IfOk result (λ reply. Begun moment self.old.shares.items self.old.books.asks.items ask self.old.log self.new.log self.new.books.asks.items reply (if is_off_in self.old.shares.items self.old.books.standing.items ask.tenant ask.address then Some IsHeld else None)) }
        ensures err { OnErr result ((self.new.log ≡ self.old.log) × (self.new.books.asks.items ≡ self.old.books.asks.items)) }
    {
        let off = self.is_off(ask.tenant, &ask.address);
        self.books.record(ask)?;
        if off {
            self.hold(alloc, moment)
        } else {
            self.begin(alloc, moment)
        }
    }
}
