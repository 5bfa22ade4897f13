//! What is known of one numbered check-out.

ghost use Rattle.std.specs.Prelude.{◌≡◌};
ghost use Rattle.mdb_recordings.specs.Steps.{caller_after, ended_after};

use crate::event::Told;

/// What the events of a pool tell of the check-out with a number.
#[derive(Clone, Copy, Debug)]
pub struct Caller {
    /// It was started, and neither served nor failed since.
    pub is_waiting: bool,
    /// It was started, and neither got a connection nor failed since.
    pub is_checking_out: bool,
    /// Its place among the numbered check-outs, in the order of their starts, from 1 on.
    pub place: u64,
    /// The line on which one with the number ended last.
    pub ended: Option<u64>,
}

impl Caller {
    /// Nothing was told of it.
    pub const UNTOLD: Caller = Caller {
        is_waiting: false,
        is_checking_out: false,
        place: 0,
        ended: None,
    };

    fn ended_after(&self, told: &Told, line: u64) -> Option<u64>
        ensures { result ≡ ended_after told.now line self.now.ended }
    {
        if told.ends_check_out() {
            Some(line)
        } else {
            self.ended
        }
    }

    /// After an event on this line that has its number; `place` is that of a check-out that starts now.
    pub(crate) fn after(self, told: &Told, line: u64, place: u64) -> Caller
        ensures { result ≡ caller_after told.now line place self }
    {
        let ended = self.ended_after(told, line);
        if told.starts() {
            Caller {
                is_waiting: true,
                is_checking_out: true,
                place,
                ended,
            }
        } else {
            Caller {
                is_waiting: !told.ends_wait() && self.is_waiting,
                is_checking_out: !told.ends_check_out() && self.is_checking_out,
                place: self.place,
                ended,
            }
        }
    }
}
