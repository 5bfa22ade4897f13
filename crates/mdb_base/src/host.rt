//! A host that contracts see as the bytes of its text.

ghost use Rattle.std.specs.Prelude.{◌≡◌, ◌==◌, string_bytes, IfOk};
ghost use Rattle.std.proofs.Common.{rules};
ghost use Rattle.std.specs.Cmp.{partial_order_from_own_ties};
ghost use Rattle.std.specs.Cmp.Rules.{comparing};
ghost use Rattle.std.specs.Cmp.Lexicographic.{pointwise, slice_cmp};
ghost use Rattle.std.specs.Ordering.{nat_cmp, as_partial_cmp};

use std::alloc::AllocError;
use std::cmp::Ordering;
use std::fmt;
use std::marker::Model;
use std::sync::ArcStr;

/// The text of a host, seen by contracts as the list of its bytes. Its copies share it and take no memory.
#[derive(Drop)]
pub struct Host {
    text: ArcStr,
}

impl Model for Host {
    ghost use Rattle.std.specs.Prelude.{List, ℕ};
    ghost use Rattle.std.specs.Arc.{arc_str_bytes};

    ghost Value = { List ℕ };

    ghost view = { λ h. arc_str_bytes h.text };
}

impl Host {
    /// Keeps the text as it is.
    pub fn new(text: String) -> Result<Host, AllocError>
        ensures { IfOk result (λ host. host ≡ string_bytes text) }
    {
        let text = ArcStr::from_string(text)?;
        Ok(Host { text })
    }

    /// The text, lent.
    pub fn as_str(&self) -> &str
        ensures { result.now ≡ self.now }
    {
        self.text.as_str()
    }
}

impl Clone for Host {
    ghost is_clone = { λ s t. t ≡ s };

    /// Fails only where the count of copies is full.
    fn clone(&self) -> Result<Host, AllocError> {
        let text = self.text.clone()?;
        Ok(Host { text })
    }
}

impl fmt::Debug for Host {
    fn fmt<W: fmt::Write>(&self, f: &mut fmt::Formatter<W>) -> fmt::Result {
        let text = self.as_str();
        write!(f, "{text:?}")
    }
}

impl PartialEq for Host {
    ghost eq = { pointwise ◌==◌ };

    ghost laws = { Prim.search (comparing, rules) };

    fn eq(&self, other: &Host) -> bool {
        self.as_str() == other.as_str()
    }
}

impl Eq for Host {
    ghost laws = { Prim.search (comparing, rules) };
}

impl Ord for Host {
    ghost cmp = { slice_cmp nat_cmp };

    ghost total = { Prim.search (comparing, rules) };

    ghost matches_partial_cmp = { Prim.search (comparing, rules) };

    ghost matches_eq = { Prim.search (comparing, rules) };

    fn cmp(&self, other: &Host) -> Ordering {
        self.as_str().cmp(other.as_str())
    }
}

impl PartialOrd for Host {
    ghost partial_cmp = { as_partial_cmp (slice_cmp nat_cmp) };

    ghost laws = { partial_order_from_own_ties (Prim.search (comparing, rules)) (Prim.search (comparing, rules)) };

    fn partial_cmp(&self, other: &Host) -> Option<Ordering> {
        Some(self.cmp(other))
    }
}
