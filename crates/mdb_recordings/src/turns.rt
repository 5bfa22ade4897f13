//! In which order the numbered check-outs of a pool are served.

ghost use Rattle.std.specs.Prelude.{◌≡◌, ◌+◌, is_some, IfOk, Some, if◌then◌else◌};
ghost use Rattle.mdb_recordings.specs.Lives.{latest_after, overtakes};
ghost use Rattle.mdb_recordings.specs.Steps.{turns_after};

use crate::caller::Caller;
use crate::event::{Event, Told};
use crate::facts::one_more;
use mdb_base::OutOfMemory;

/// What the events of a pool tell of the order of its numbered check-outs.
#[derive(Clone, Copy, Debug)]
pub struct Turns {
    /// How many were started.
    pub started: u64,
    /// The greatest place of one that was served; 0 before any.
    pub latest: u64,
    /// The line on which that one was served.
    pub latest_on: Option<u64>,
}

// A check-out that waits is served, and was started behind all that were served before.
fn overtakes(told: &Told, caller: &Caller, latest: u64) -> bool
    ensures { result ≡ overtakes told.now caller.now latest }
{
    told.serves() && (caller.is_waiting && latest < caller.place)
}

fn latest_after(told: &Told, caller: &Caller, latest: u64) -> u64
    ensures { result ≡ latest_after told.now caller.now latest }
{
    if overtakes(told, caller, latest) {
        caller.place
    } else {
        latest
    }
}

impl Turns {
    /// None was started.
    pub const UNTOLD: Turns = Turns {
        started: 0,
        latest: 0,
        latest_on: None,
    };

    // Where the one was served that was started last, after an event on this line.
    fn latest_on_after(&self, told: &Told, line: u64, caller: &Caller) -> Option<u64>
        ensures { result ≡ if overtakes told.now caller.now self.now.latest then Some line else self.now.latest_on }
    {
        if overtakes(told, caller, self.latest) {
            Some(line)
        } else {
            self.latest_on
        }
    }

    /// After an event on this line that may have the number of the caller.
    pub(crate) fn after(
        self,
        event: &Event,
        line: u64,
        caller: &Caller,
    ) -> Result<Turns, OutOfMemory>
        ensures { IfOk result (λ x. x ≡ turns_after event.now.told line event.now.caller caller.now self) }
    {
        let latest = latest_after(&event.told, caller, self.latest);
        let latest_on = self.latest_on_after(&event.told, line, caller);
        if event.told.starts() && event.caller.is_some() {
            let started = one_more(self.started)?;
            Ok(Turns {
                started,
                latest,
                latest_on,
            })
        } else {
            Ok(Turns {
                started: self.started,
                latest,
                latest_on,
            })
        }
    }
}
