//! The proxy.

ghost use Rattle.std.specs.Prelude.{◌≡◌, [], true, false, Some, None, IfOk, IfErr, OnErr};
ghost use Rattle.mdb_proxies.specs.Shares.{are_shares};
ghost use Rattle.mdb_proxies.specs.Charge.{is_behind};
ghost use Rattle.mdb_proxies.specs.Order.{IsFirstCome};
ghost use Rattle.mdb_proxies.specs.Tables.{Sound, some_may_go};
ghost use Rattle.mdb_proxies.specs.declared.step.ProxyReply.TheVariants.{Refused as IsRefused};
ghost use Rattle.mdb_proxies.specs.declared.step.ProxyRefused.{ProxyRefused as Why};
ghost use Rattle.mdb_proxies.specs.Replies.{refusal_by, refusal_at, refusal_of, Performs};
ghost use Rattle.mdb_proxies.specs.View.{KeepsShares};

use crate::asked::Asked;
use crate::books::Books;
use crate::handing::ProxyState;
use crate::passed::is_passed;
use crate::shares::{ShareError, are_shares};
use crate::step::{Answer, ProxyAct, ProxyRefused, ProxyReply, ProxyStep};
use mdb_base::{Moment, OutOfMemory};
use mdb_log::{Core, Log};
use std::alloc::Global;
use std::marker::Model;

/// A core behind shares. A tenant's ask is handed to the core as a request while fewer of the tenant's requests than its share stand at the
/// address, and is held back otherwise. So no tenant waits because another holds connections: over a driver one waits only for connections that
/// are being established, or for ids that are used up.
#[derive(Drop)]
pub struct Proxy<C: Core> {
    parts: ProxyState<C>,
}

impl<C: Core> Model for Proxy<C> {
    ghost use Rattle.std.specs.Prelude.{◌≡◌};
    ghost use Rattle.std.specs.Coded.{codes};
    ghost use Rattle.mdb_base.specs.DocumentCode.{fields_coded};
    ghost use Rattle.mdb_proxies.specs.View.{ProxyView};
    ghost use Rattle.mdb_proxies.specs.Order.{IsFirstCome};
    ghost use Rattle.mdb_proxies.specs.Tables.{Sound, some_may_go};

    ghost Value = { ProxyView };

    ghost coded = { Prim.hlevel (codes, fields_coded) };

    ghost view = { λ p. record { shares = p.parts.shares.items; asks = p.parts.books.asks.items; log = p.parts.log } };

    ghost invariant = { λ p. C.stands p.parts.core p.parts.log × Sound p.parts.log p.parts.shares.items p.parts.books × (p.parts.behind ≡ some_may_go p.parts.shares.items p.parts.books.standing.items) × IsFirstCome p.parts.log p.parts.books.asks.items };
}

impl<C: Core> ProxyState<C> {
    // Why the act is refused, whatever its moment.
    fn refusal_by(&self, act: &ProxyAct) -> Option<ProxyRefused>
        requires sound { Sound self.now.log self.now.shares.items self.now.books }
        ensures { result ≡ refusal_by self.now.shares.items self.now.books.asks.items self.now.log act.now }
    {
        match act {
            ProxyAct::Ask(tenant, request, _) => {
                if *tenant as usize >= self.shares.len() {
                    Some(ProxyRefused::NoTenant)
                } else if self.books.known.contains_key(request) {
                    Some(ProxyRefused::RequestKnown)
                } else {
                    None
                }
            }
            ProxyAct::Collect(request) => {
                if self.books.is_collectable(*request) {
                    None
                } else {
                    Some(ProxyRefused::UnknownRequest)
                }
            }
            ProxyAct::Finish(_, _) => None,
            ProxyAct::Pass(act) => {
                if is_passed(act) {
                    None
                } else {
                    Some(ProxyRefused::NotPassed)
                }
            }
        }
    }

    // Why a step at the moment is refused.
    fn refusal(&self, moment: Moment, act: &ProxyAct) -> Option<ProxyRefused>
        requires stands { C.stands self.now.core self.now.log }
        requires sound { Sound self.now.log self.now.shares.items self.now.books }
        ensures { result ≡ refusal_at moment self.now.shares.items self.now.books.asks.items self.now.log act.now }
    {
        let last = self.core.last_moment();
        if moment < last {
            return Some(ProxyRefused::TimeBack(last));
        }
        self.refusal_by(act)
    }

    fn perform_act(
        &mut self,
        alloc: Global,
        moment: Moment,
        act: ProxyAct,
    ) -> Result<ProxyReply, OutOfMemory>
        requires may { refusal_by self.old.shares.items self.old.books.asks.items self.old.log act ≡ None }
        requires stands { C.stands self.old.core self.old.log }
        requires sound { Sound self.old.log self.old.shares.items self.old.books }
        requires behind { self.old.behind ≡ some_may_go self.old.shares.items self.old.books.standing.items }
        ensures stands { C.stands self.new.core self.new.log }
        ensures sound { Sound self.new.log self.new.shares.items self.new.books }
        ensures shares { self.new.shares ≡ self.old.shares }
        ensures behind { self.new.behind ≡ some_may_go self.new.shares.items self.new.books.standing.items }
        ensures ok { IfOk result (λ reply. Performs moment self.old.shares.items self.old.books.asks.items self.new.books.asks.items self.old.log self.new.log act reply) }
        ensures err { OnErr result ((self.new.log ≡ self.old.log) × (self.new.books.asks.items ≡ self.old.books.asks.items)) }
    {
        match act {
            ProxyAct::Ask(tenant, request, address) => {
                let entries = self.log.len() as u64;
                let ask = Asked {
                    tenant,
                    request,
                    address,
                    entries,
                    told: false,
                };
                self.ask(alloc, moment, ask)
            }
            ProxyAct::Collect(request) => self.collect(alloc, moment, request),
            ProxyAct::Finish(request, used) => self.finish(alloc, moment, request, used),
            ProxyAct::Pass(act) => {
                let reply = self.pass(alloc, moment, act)?;
                Ok(ProxyReply::Core(reply))
            }
        }
    }

    // As `perform_act` says, and the asks were handed on in their order.
    fn perform(
        &mut self,
        alloc: Global,
        moment: Moment,
        act: ProxyAct,
    ) -> Result<ProxyReply, OutOfMemory>
        requires may { refusal_by self.old.shares.items self.old.books.asks.items self.old.log act ≡ None }
        requires stands { C.stands self.old.core self.old.log }
        requires sound { Sound self.old.log self.old.shares.items self.old.books }
        requires behind { self.old.behind ≡ some_may_go self.old.shares.items self.old.books.standing.items }
        requires order { IsFirstCome self.old.log self.old.books.asks.items }
        ensures stands { C.stands self.new.core self.new.log }
        ensures sound { Sound self.new.log self.new.shares.items self.new.books }
        ensures shares { self.new.shares ≡ self.old.shares }
        ensures behind { self.new.behind ≡ some_may_go self.new.shares.items self.new.books.standing.items }
        ensures order { IsFirstCome self.new.log self.new.books.asks.items }
        ensures ok { IfOk result (λ reply. Performs moment self.old.shares.items self.old.books.asks.items self.new.books.asks.items self.old.log self.new.log act reply) }
        ensures err { OnErr result ((self.new.log ≡ self.old.log) × (self.new.books.asks.items ≡ self.old.books.asks.items)) }
    {
        self.perform_act(alloc, moment, act)
    }
}

impl<C: Core> Proxy<C> {
    /// A proxy with no ask. `Shares` exactly where there is no share, there are more than 64, one is 0, or their sum is above `max`.
    pub fn new(
        alloc: Global,
        core: C,
        log: Log,
        shares: Vec<u32>,
        max: u32,
    ) -> Result<Proxy<C>, ShareError>
        requires stands { C.stands core log }
        ensures shares { IfOk result (λ proxy. (proxy.shares ≡ shares.items) × (are_shares shares.items max ≡ true)) }
        ensures begins { IfOk result (λ proxy. (proxy.asks ≡ []) × (proxy.log ≡ log)) }
        ensures err { IfErr result (λ e. (e ≡ ShareError.Shares) × (are_shares shares.items max ≡ false)) }
    {
        if !are_shares(shares.as_slice(), max) {
            return Err(ShareError::Shares);
        }
        Ok(Proxy {
            parts: ProxyState {
                core,
                log,
                shares,
                books: Books::new(alloc),
                behind: false,
            },
        })
    }

    /// The core's log.
    pub fn log(&self) -> &Log
        ensures { result.now ≡ self.now.log }
    {
        &self.parts.log
    }

    /// The core, which stands for the log.
    pub fn core(&self) -> &C
        ensures { C.stands result.now self.now.log }
    {
        &self.parts.core
    }

    /// The asks that weren't refused when they were made, in their order.
    pub fn asks(&self) -> &[Asked]
        ensures { result.now ≡ self.now.asks }
    {
        self.parts.books.asks.as_slice()
    }

    /// The core and its log.
    pub fn close(self) -> (C, Log)
        ensures log { result.1 ≡ self.log }
        ensures stands { C.stands result.0 result.1 }
    {
        let Proxy { parts } = self;
        let ProxyState {
            core,
            log,
            shares,
            books,
            behind: _,
        } = parts;
        drop(shares);
        drop(books);
        (core, log)
    }

    /// One step. `OutOfMemory` where memory ran out before or in the step's first step of the core; nothing has changed then.
    pub fn step(&mut self, alloc: Global, step: ProxyStep) -> Result<Answer, OutOfMemory>
        ensures shares { self.new.shares ≡ self.old.shares }

        // Refused exactly by the first reason that holds, and nothing changed.
        ensures refused { IfOk result (λ answer. (why : Why) → refusal_of self.old step ≡ Some why → (answer.reply ≡ IsRefused why) × (self.new ≡ self.old)) }

        // What is not refused is answered by the proxy where the request is held back or its reply was kept, and else by the core.
        ensures performs { IfOk result (λ answer. refusal_of self.old step ≡ None → Performs step.moment self.old.shares self.old.asks self.new.asks self.old.log self.new.log step.act answer.reply) }

        // A lack of memory that is told changed nothing.
        ensures err { OnErr result ((refusal_of self.old step ≡ None) × (self.new ≡ self.old)) }
        ensures keeps { KeepsShares self.new }

        // Of the asks of each tenant at an address the first ones were handed on, in their order.
        ensures order { IsFirstCome self.new.log self.new.asks }
        ensures behind { IfOk result (λ answer. answer.behind ≡ is_behind self.new.shares self.new.asks self.new.log) }
    {
        let ProxyStep { moment, act } = step;
        let parts = &mut self.parts;
        if let Some(why) = parts.refusal(moment, &act) {
            drop(act);
            return Ok(Answer {
                reply: ProxyReply::Refused(why),
                behind: parts.behind,
            });
        }
        let reply = parts.perform(alloc, moment, act)?;
        Ok(Answer {
            reply,
            behind: parts.behind,
        })
    }
}
