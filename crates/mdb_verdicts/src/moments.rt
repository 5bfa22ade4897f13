//! That the moments of a log are those of their type.

ghost use Rattle.std.specs.Prelude.{◌<◌, ◌^◌};
ghost use Rattle.std.specs.List.{AllByRecursion};

use mdb_log::{Entry, Log};

fn moment_fits(entry: &Entry)
    ensures { entry.now.step.moment < 2 ^ 64 }
{
    let _moment = entry.step.moment;
}

/// Each moment is one of 64 bits. Reads the log once.
pub fn moments_fit(log: &Log)
    ensures { AllByRecursion (λ e. e.step.moment < 2 ^ 64) log.now }
{
    let entries = log.entries();
    for entry in entries {
        moment_fits(entry);
    }
}
