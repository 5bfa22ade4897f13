//! What the callers of requests ask of a proxy.

ghost use Rattle.std.specs.Prelude.{◌≡◌, ◌<◌, true, length, IfOk, OnErr};
ghost use Rattle.mdb_log.specs.declared.reply.Reply.{Reply as ReplyRecord};
ghost use Rattle.mdb_log.specs.declared.step.Act.TheVariants.{Collect as CoreCollect};
ghost use Rattle.mdb_proxies.specs.declared.step.ProxyAct.TheVariants.{Collect, Finish};
ghost use Rattle.mdb_proxies.specs.declared.step.ProxyReply.TheVariants.{Core as Tells};
ghost use Rattle.mdb_proxies.specs.Telling.{ask_of, tells};
ghost use Rattle.mdb_proxies.specs.Entries.{GoesOn, Enters};
ghost use Rattle.mdb_proxies.specs.Replies.{Performs, is_collectable};
ghost use Rattle.mdb_proxies.specs.Recording.{told_at, tell_at};
ghost use Rattle.mdb_proxies.specs.Tables.{Sound, some_may_go};

use crate::handing::ProxyState;
use crate::step::ProxyReply;
use crate::told::tells;
use mdb_base::{Moment, OutOfMemory};
use mdb_log::{Act, Core, Reply, Use};
use std::alloc::Global;

impl<C: Core> ProxyState<C> {
    // The caller of the ask at this place was told what it came to, if so.
    fn tell(&mut self, place: usize, told: bool)
        requires place { place < length self.old.books.asks.items }
        requires stands { C.stands self.old.core self.old.log }
        requires sound { Sound self.old.log self.old.shares.items self.old.books }
        requires behind { self.old.behind ≡ some_may_go self.old.shares.items self.old.books.standing.items }
        ensures stands { C.stands self.new.core self.new.log }
        ensures sound { Sound self.new.log self.new.shares.items self.new.books }
        ensures shares { self.new.shares ≡ self.old.shares }
        ensures behind { self.new.behind ≡ some_may_go self.new.shares.items self.new.books.standing.items }
        ensures log { self.new.log ≡ self.old.log }
        ensures asks { self.new.books.asks.items ≡ tell_at told place self.old.books.asks.items }
    {
        if !told {
            return;
        }
        self.books.tell(place);
    }

    // The kept reply is told to the caller of the ask at this place.
    fn release(
        &mut self,
        alloc: Global,
        moment: Moment,
        place: usize,
        kept: Reply,
    ) -> Result<ProxyReply, OutOfMemory>
        requires place { place < length self.old.books.asks.items }
        requires stands { C.stands self.old.core self.old.log }
        requires sound { Sound self.old.log self.old.shares.items self.old.books }
        requires behind { self.old.behind ≡ some_may_go self.old.shares.items self.old.books.standing.items }
        ensures stands { C.stands self.new.core self.new.log }
        ensures sound { Sound self.new.log self.new.shares.items self.new.books }
        ensures shares { self.new.shares ≡ self.old.shares }
        ensures behind { self.new.behind ≡ some_may_go self.new.shares.items self.new.books.standing.items }
        ensures ok { IfOk result (λ reply. (reply ≡ Tells kept) × (self.new.books.asks.items ≡ told_at place self.old.books.asks.items) × GoesOn moment self.old.shares.items self.old.books.asks.items self.old.log self.new.log) }
        ensures err { OnErr result ((self.new.log ≡ self.old.log) × (self.new.books.asks ≡ self.old.books.asks)) }
    {
        match self.catch_up(alloc, moment) {
            Ok(()) => {
                self.tell(place, true);
                Ok(ProxyReply::Core(kept))
            }
            Err(OutOfMemory) => Err(OutOfMemory),
        }
    }

    // The caller of the ask at this place asks the core.
    fn ask_core(
        &mut self,
        alloc: Global,
        moment: Moment,
        request: u32,
        place: usize,
    ) -> Result<ProxyReply, OutOfMemory>
        requires place { place < length self.old.books.asks.items }
        requires stands { C.stands self.old.core self.old.log }
        requires sound { Sound self.old.log self.old.shares.items self.old.books }
        requires behind { self.old.behind ≡ some_may_go self.old.shares.items self.old.books.standing.items }
        ensures stands { C.stands self.new.core self.new.log }
        ensures sound { Sound self.new.log self.new.shares.items self.new.books }
        ensures shares { self.new.shares ≡ self.old.shares }
        ensures behind { self.new.behind ≡ some_may_go self.new.shares.items self.new.books.standing.items }
        ensures ok { IfOk result (λ reply. (told : ReplyRecord) × (reply ≡ Tells told) × (self.new.books.asks.items ≡ tell_at (tells told) place self.old.books.asks.items) × Enters moment self.old.shares.items self.old.books.asks.items (record { moment = moment; act = CoreCollect request }) told self.old.log self.new.log) }
        ensures err { OnErr result ((self.new.log ≡ self.old.log) × (self.new.books.asks ≡ self.old.books.asks)) }
    {
        let reply = match self.pass(alloc, moment, Act::Collect(request)) {
            Ok(reply) => reply,
            Err(OutOfMemory) => return Err(OutOfMemory),
        };
        let told = tells(&reply);
        self.tell(place, told);
        Ok(ProxyReply::Core(reply))
    }

    // How the request stands.
    pub fn collect(
        &mut self,
        alloc: Global,
        moment: Moment,
        request: u32,
    ) -> Result<ProxyReply, OutOfMemory>
        requires collectable { is_collectable self.old.log (ask_of request self.old.books.asks.items) ≡ true }
        requires stands { C.stands self.old.core self.old.log }
        requires sound { Sound self.old.log self.old.shares.items self.old.books }
        requires behind { self.old.behind ≡ some_may_go self.old.shares.items self.old.books.standing.items }
        ensures stands { C.stands self.new.core self.new.log }
        ensures sound { Sound self.new.log self.new.shares.items self.new.books }
        ensures shares { self.new.shares ≡ self.old.shares }
        ensures behind { self.new.behind ≡ some_may_go self.new.shares.items self.new.books.standing.items }
        ensures ok { IfOk result (λ reply. Performs moment self.old.shares.items self.old.books.asks.items self.new.books.asks.items self.old.log self.new.log (Collect request) reply) }
        ensures err { OnErr result ((self.new.log ≡ self.old.log) × (self.new.books.asks ≡ self.old.books.asks)) }
    {
        let place = self.books.place(request).unwrap_or(0);
        let Some(at) = self.books.handed(place) else {
            self.catch_up(alloc, moment)?;
            return Ok(ProxyReply::Held);
        };
        match self.kept(place, at)? {
            Some(kept) => self.release(alloc, moment, place, kept),
            None => self.ask_core(alloc, moment, request, place),
        }
    }

    // The caller of the request returns its connection.
    pub fn finish(
        &mut self,
        alloc: Global,
        moment: Moment,
        request: u32,
        used: Use,
    ) -> Result<ProxyReply, OutOfMemory>
        requires stands { C.stands self.old.core self.old.log }
        requires sound { Sound self.old.log self.old.shares.items self.old.books }
        requires behind { self.old.behind ≡ some_may_go self.old.shares.items self.old.books.standing.items }
        ensures stands { C.stands self.new.core self.new.log }
        ensures sound { Sound self.new.log self.new.shares.items self.new.books }
        ensures shares { self.new.shares ≡ self.old.shares }
        ensures behind { self.new.behind ≡ some_may_go self.new.shares.items self.new.books.standing.items }
        ensures ok { IfOk result (λ reply. Performs moment self.old.shares.items self.old.books.asks.items self.new.books.asks.items self.old.log self.new.log (Finish request used) reply) }
        ensures err { OnErr result ((self.new.log ≡ self.old.log) × (self.new.books.asks ≡ self.old.books.asks)) }
    {
        let reply = self.pass(alloc, moment, Act::Return(request, used))?;
        Ok(ProxyReply::Core(reply))
    }
}
