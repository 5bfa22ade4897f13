//! When time changes something in the parts of a pool, and by which timer.

ghost use Rattle.std.specs.Prelude.{◌≡◌};
ghost use Rattle.mdb_pool.specs.Dues.{first_from, is_by, limit_after, timer_by};
ghost use Rattle.mdb_pool.specs.Kept.Body.{now_of};

use crate::dues::Timer;
use crate::kept::body::Body;
use mdb_base::Moment;

// The moment that is a limit above 0 after another, where moments reach so far.
fn limit_after(limit: Option<Moment>, began: Option<Moment>) -> Option<Moment>
    ensures { result ≡ limit_after limit began }
{
    let (Some(limit), Some(began)) = (limit, began) else {
        return None;
    };
    if 0 < limit && limit <= u64::MAX - began {
        return Some(began + limit);
    }
    None
}

// There is such a moment, and it is no later than the other.
fn is_by(moment: Moment, due: Option<Moment>) -> bool
    ensures { result ≡ is_by moment due }
{
    match due {
        Some(due) => due <= moment,
        None => false,
    }
}

// The timer that has something to do at the moment, where these are due then.
fn timer_by(moment: Moment, expiry: Option<Moment>, maintenance: Option<Moment>) -> Option<Timer>
    ensures { result ≡ timer_by moment expiry maintenance }
{
    if is_by(moment, expiry) {
        return Some(Timer::Expire);
    }
    if is_by(moment, maintenance) {
        return Some(Timer::Maintain);
    }
    None
}

// The first of two moments, and the given one where it has passed.
fn first_from(moment: Moment, expiry: Option<Moment>, maintenance: Option<Moment>) -> Option<Moment>
    ensures { result ≡ first_from moment expiry maintenance }
{
    match (expiry, maintenance) {
        (None, None) => None,
        (Some(only), None) => Some(moment.max(only)),
        (None, Some(only)) => Some(moment.max(only)),
        (Some(expiry), Some(maintenance)) => Some(moment.max(expiry.min(maintenance))),
    }
}

impl Body {
    ghost use Rattle.mdb_pool.specs.Kept.Values.{asked_in, due_now, expiry_now, first_available, first_caller, maintenance_now, since_in, timer_now};

    // When the first of the queued callers asked.
    pub(crate) fn first_asked(&self) -> Option<Moment>
        ensures { result ≡ asked_in (first_caller (now_of self.now)) }
    {
        match self.first_caller() {
            Some(request) => Some(request.asked_at),
            None => None,
        }
    }

    // Since when the first of the available connections is available.
    pub(crate) fn first_since(&self) -> Option<Moment>
        ensures { result ≡ since_in (first_available (now_of self.now)) }
    {
        match self.connections.first_left() {
            Some(connection) => Some(connection.since),
            None => None,
        }
    }

    // When the first of the queued callers has waited for too long.
    pub(crate) fn next_expiry(&self) -> Option<Moment>
        ensures { result ≡ expiry_now (now_of self.now) }
    {
        limit_after(self.options.max_wait, self.first_asked())
    }

    // When maintenance changes something, from the moment on.
    pub(crate) fn next_maintenance(&self, moment: Moment) -> Option<Moment>
        ensures { result ≡ maintenance_now (now_of self.now) moment }
    {
        if self.wants_filling() || self.first_perished(moment).is_some() {
            return Some(moment);
        }
        limit_after(self.options.max_idle_time, self.first_since())
    }

    // The timer that changes something at the moment.
    pub(crate) fn timer_at(&self, moment: Moment) -> Option<Timer>
        ensures { result ≡ timer_now (now_of self.now) moment }
    {
        timer_by(moment, self.next_expiry(), self.next_maintenance(moment))
    }

    // The first moment from the given one on at which a timer changes something.
    pub(crate) fn next_due(&self, moment: Moment) -> Option<Moment>
        ensures { result ≡ due_now (now_of self.now) moment }
    {
        first_from(moment, self.next_expiry(), self.next_maintenance(moment))
    }
}
