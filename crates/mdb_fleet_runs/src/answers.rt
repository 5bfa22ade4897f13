//! What events are answered.

use mdb_lines::ReplyText;
use mdb_log::Reply;
use std::fmt;

/// The answer to an event.
#[derive(Debug, Drop)]
pub enum FleetAnswer {
    /// The event happened.
    Done,
    /// The number of the reply that was put on the wire.
    Sent(u32),
    /// What the driver answered: whether its description changed or a pool was cleared, or a refusal.
    Told(Reply),
    /// The member is no primary, in its own view.
    NotPrimary,
    /// There is no reply with this number.
    NoReply,
    /// There is no member with this number.
    NoMember,
}

impl fmt::Display for FleetAnswer {
    ghost use Rattle.std.specs.Prelude.{Some};
    ghost use Rattle.mdb_fleet_runs.specs.FleetText.{answer_text};

    ghost output = { λ x. Some (answer_text x) };

    fn fmt<W: fmt::Write>(&self, f: &mut fmt::Formatter<W>) -> fmt::Result {
        match self {
            FleetAnswer::Done => write!(f, "Done"),
            FleetAnswer::Sent(number) => write!(f, "Reply {number}"),
            FleetAnswer::Told(reply) => {
                let text = ReplyText(reply);
                write!(f, "{text}")
            }
            FleetAnswer::NotPrimary => write!(f, "Refused NotPrimary"),
            FleetAnswer::NoReply => write!(f, "Refused NoReply"),
            FleetAnswer::NoMember => write!(f, "Refused NoMember"),
        }
    }
}
