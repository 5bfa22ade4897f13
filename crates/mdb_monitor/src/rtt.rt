//! The average round trip of a server.

ghost use Rattle.std.specs.Prelude.{◌≡◌, ◌*◌, ◌/◌, Some};
ghost use Rattle.mdb_monitor.specs.Average.{next_average};

use mdb_base::Nanos;

/// The average of the round trips that were measured, in nanoseconds; `None` before the first one (SDAM, "Server
/// Monitoring", "Round Trip Time").
#[derive(Clone, Copy, Debug, Default, PartialEq, Eq)]
pub struct RttInfo {
    pub average: Option<Nanos>,
}

impl RttInfo {
    /// Adds a sample, which weighs a fifth. No memory is taken, and no sample makes the sum wrap.
    pub fn add_sample(&mut self, sample: Nanos)
        ensures { self.new.average ≡ Some (next_average self.old.average sample) }
    {
        self.average = Some(next_average(self.average, sample));
    }
}

// The average with one more sample.
pub fn next_average(average: Option<Nanos>, sample: Nanos) -> Nanos
    ensures { result ≡ next_average average sample }
{
    match average {
        Some(old) => sample / 5 + four_fifths(old),
        None => sample,
    }
}

// Without the product of the whole, which would need more than 64 bits.
fn four_fifths(whole: Nanos) -> Nanos
    ensures { result ≡ whole * 4 / 5 }
{
    whole / 5 * 4 + whole % 5 * 4 / 5
}
