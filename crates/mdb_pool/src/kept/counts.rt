//! How many connections and requests the parts of a pool have.

ghost use Rattle.std.specs.Prelude.{◌≡◌};
ghost use Rattle.mdb_pool.specs.Kept.Body.{now_of};

use crate::kept::body::Body;

impl Body {
    ghost use Rattle.mdb_pool.specs.Kept.Values.{available_count, in_use_count, queued_count, waiting_count};

    pub(crate) fn available_count(&self) -> usize
        ensures { result ≡ available_count (now_of self.now) }
    {
        self.connections.available_count()
    }

    // How many connections are neither available nor pending.
    pub(crate) fn in_use_count(&self) -> usize
        ensures { result ≡ in_use_count (now_of self.now) }
    {
        let idle = self.available_count();
        let pending = self.pending_count();
        let busy = self.connections.len().saturating_sub(idle);
        busy.saturating_sub(pending)
    }

    // How many requests are queued, warm ones too.
    pub(crate) fn queued_count(&self) -> usize
        ensures { result ≡ queued_count (now_of self.now) }
    {
        self.requests.queued_count()
    }

    // How many callers are queued.
    pub(crate) fn waiting_count(&self) -> usize
        ensures { result ≡ waiting_count (now_of self.now) }
    {
        let warm = self.requests.warm_count();
        self.requests.queued_count().saturating_sub(warm)
    }
}
