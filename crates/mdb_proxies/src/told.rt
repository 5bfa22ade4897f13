//! What the callers of requests are told.

ghost use Rattle.std.specs.Prelude.{◌≡◌, ◌<◌, ◌||◌, true, not, length, nat_eq, Some, IfOk, if◌then◌else◌};
ghost use Rattle.std.specs.List.{HoldsAt};
ghost use Rattle.mdb_log.specs.Driver.{is_refusal};
ghost use Rattle.mdb_proxies.specs.Telling.{tells, worth_keeping};

use crate::books::{Books, is_refused};
use crate::handing::ProxyState;
use mdb_base::OutOfMemory;
use mdb_log::{Core, Reply};

// The reply tells what a request came to.
pub fn tells(reply: &Reply) -> bool
    ensures { result ≡ tells reply.now }
{
    match reply {
        Reply::Pooled(_, _) => true,
        Reply::Ended(_) => true,
        _ => false,
    }
}

fn is_worth_keeping(reply: &Reply) -> bool
    ensures { result ≡ (tells reply.now || is_refusal reply.now) }
{
    tells(reply) || is_refused(reply)
}

impl Books {
    ghost use Rattle.mdb_log.specs.declared.log.Entry.{Entry as EntryRecord};
    ghost use Rattle.std.specs.Prelude.{List};
    ghost use Rattle.mdb_proxies.specs.Telling.{ask_of};
    ghost use Rattle.mdb_proxies.specs.Replies.{is_collectable};
    ghost use Rattle.mdb_proxies.specs.Tables.{KeptBy, NotedBy};

    // The caller of the ask at this place was told nothing yet that it came to.
    pub fn is_untold(&self, place: usize) -> bool
        ensures { place < length self.now.asks.items → HoldsAt (λ x. result ≡ not x.told) self.now.asks.items place }
    {
        match self.asks.get(place) {
            Some(ask) => !ask.told,
            None => false,
        }
    }

    fn is_returned(&self, place: usize) -> bool
        ensures { place < length self.now.notes.items → HoldsAt (λ n. result ≡ n.returned) self.now.notes.items place }
    {
        match self.notes.get(place) {
            Some(note) => note.returned,
            None => false,
        }
    }

    // The place in the log of the entry that handed the ask at this place on.
    pub fn handed(&self, place: usize) -> Option<usize>
        ensures { place < length self.now.notes.items → HoldsAt (λ n. result ≡ n.handed) self.now.notes.items place }
    {
        match self.notes.get(place) {
            Some(note) => note.handed,
            None => None,
        }
    }

    // The request was asked, and its caller was neither told what it came to nor returned its connection.
    pub fn is_collectable(&self, request: u32) -> bool
        ensures { (log : List EntryRecord) → KeptBy log self.now → NotedBy log self.now → result ≡ is_collectable log (ask_of request self.now.asks.items) }
    {
        match self.place(request) {
            None => false,
            Some(place) => self.is_untold(place) && !self.is_returned(place),
        }
    }
}

impl<C: Core> ProxyState<C> {
    // The reply that is kept for the caller of the ask at this place, which the entry at the other place of the log handed on.
    pub fn kept(&self, place: usize, at: usize) -> Result<Option<Reply>, OutOfMemory>
        requires place { place < length self.now.books.asks.items }
        requires at { at < length self.now.log }
        ensures { IfOk result (λ kept. HoldsAt (λ x. HoldsAt (λ e. kept ≡ (if x.told then None else worth_keeping (Some e.reply))) self.now.log at) self.now.books.asks.items place) }
    {
        if !self.books.is_untold(place) {
            return Ok(None);
        }
        let reply = &self.log.entries()[at].reply;
        if !is_worth_keeping(reply) {
            return Ok(None);
        }
        Ok(Some(reply.clone()?))
    }
}
