//! The events of a run, and their lines.

use mdb_base::Moment;
use std::fmt;

/// What happens to a member, or to a reply on the wire.
#[derive(Clone, Copy, Debug, PartialEq, Eq)]
pub enum FleetAct {
    /// The member wins the next election.
    Elect(u32),
    /// The member steps down, where it believes to be the primary.
    StepDown(u32),
    /// The set version of the member rises, where it believes to be the primary.
    Reconf(u32),
    /// The member's reply is put on the wire.
    Ask(u32),
    /// The reply with this number is delivered to the driver, and stays on the wire.
    Deliver(u32),
    /// A hello to the member is lost.
    Lose(u32),
}

/// An event at a moment. Moments count for the driver alone: those of the others are not compared.
#[derive(Clone, Copy, Debug, PartialEq, Eq)]
pub struct Event {
    pub moment: Moment,
    pub act: FleetAct,
}

impl fmt::Display for Event {
    ghost use Rattle.std.specs.Prelude.{Some};
    ghost use Rattle.mdb_fleet_runs.specs.Events.{event_text};

    ghost output = { λ x. Some (event_text x) };

    fn fmt<W: fmt::Write>(&self, f: &mut fmt::Formatter<W>) -> fmt::Result {
        let moment = self.moment;
        match self.act {
            FleetAct::Elect(member) => write!(f, "elect {moment} {member}"),
            FleetAct::StepDown(member) => write!(f, "down {moment} {member}"),
            FleetAct::Reconf(member) => write!(f, "reconf {moment} {member}"),
            FleetAct::Ask(member) => write!(f, "ask {moment} {member}"),
            FleetAct::Deliver(number) => write!(f, "deliver {moment} {number}"),
            FleetAct::Lose(member) => write!(f, "lose {moment} {member}"),
        }
    }
}
