//! Where asks that are held back may go on after entries of the log.

ghost use Rattle.std.specs.Prelude.{◌≡◌, ℕ, true, false, position, if◌then◌else◌};
ghost use Rattle.mdb_base.specs.declared.address.ServerAddress.{ServerAddress as AddressRecord};
ghost use Rattle.mdb_proxies.specs.declared.freed.Freed.TheVariants.{Nowhere as IsNowhere, At as IsAt, Anywhere as IsAnywhere};
ghost use Rattle.mdb_proxies.specs.Standings.{charged_at, held_at};
ghost use Rattle.mdb_proxies.specs.Tables.{is_freed, IsOnly, IsBest};

use crate::asked::Standing;
use crate::books::{charge, is_held_at, share_of};
use crate::standings::StandingAsks;

// Where charges fell: nowhere, at the tenant and address of one ask that is gone, or anywhere.
#[derive(Drop)]
pub enum Freed {
    Nowhere,
    At(Standing),
    Anywhere,
}

impl Freed {
    fn is_nowhere(&self) -> bool
        ensures { result ≡ true → self.now ≡ IsNowhere }
    {
        match self {
            Freed::Nowhere => true,
            _ => false,
        }
    }

    // Where either is freed.
    pub fn or(self, more: Freed) -> Freed
        ensures { (t : ℕ) (a : AddressRecord) → is_freed result t a ≡ false → (is_freed self t a ≡ false) × (is_freed more t a ≡ false) }
    {
        if more.is_nowhere() {
            drop(more);
            return self;
        }
        if self.is_nowhere() {
            drop(self);
            return more;
        }
        drop(self);
        drop(more);
        Freed::Anywhere
    }

    // One more standing ask is gone.
    pub fn and_gone(self, gone: Standing) -> Freed
        ensures { (t : ℕ) (a : AddressRecord) → is_freed result t a ≡ false → (is_freed self t a ≡ false) × (charged_at t a gone ≡ false) }
    {
        if gone.held {
            drop(gone);
            return self;
        }
        self.or(Freed::At(gone))
    }

    // Anywhere, if so.
    pub fn or_anywhere(self, anywhere: bool) -> Freed
        ensures { result ≡ (if anywhere then IsAnywhere else self) }
    {
        if anywhere {
            drop(self);
            return Freed::Anywhere;
        }
        self
    }
}

// The place of the first standing ask that is held back where this one was charged.
fn first_held(standing: &[Standing], one: &Standing) -> Option<usize>
    ensures { result ≡ position (held_at one.now.tenant one.now.address) standing.now }
{
    standing
        .iter()
        .position(|x| is_held_at(x, one.tenant, &one.address))
}

// The place of the next standing ask to hand on, where only those may go that stand where this one was charged.
fn next_at(shares: &[u32], standing: &[Standing], one: &Standing) -> Option<usize>
    requires { IsOnly shares.now standing.now (IsAt one.now) }
    ensures { IsBest shares.now standing.now standing.now result }
{
    if charge(standing, one.tenant, &one.address) >= share_of(shares, one.tenant) {
        return None;
    }
    first_held(standing, one)
}

// The place of the next standing ask to hand on, where only those may go that stand where it was freed.
pub fn next(shares: &[u32], standing: &StandingAsks, freed: &Freed) -> Option<usize>
    requires { IsOnly shares.now standing.now.items freed.now }
    ensures { IsBest shares.now standing.now.items standing.now.items result }
{
    match freed {
        Freed::Nowhere => None,
        Freed::At(one) => next_at(shares, standing.as_slice(), one),
        Freed::Anywhere => standing.best(shares),
    }
}
