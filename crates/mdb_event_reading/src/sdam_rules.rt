//! Which events a text shows.

ghost use Rattle.std.specs.Prelude.{◌≡◌, ◌<◌, ◌^◌};
ghost use Rattle.mdb_event_reading.specs.SdamTexts.{is_server_id, is_beat, is_shown, IsBeatOfTypes, IsShownOfTypes};

use crate::shown_sdam::{ShownBeat, ShownSdam};
use mdb_parts::number_types::signed;
use mdb_parts::{error_types, is_error};

fn is_server_id(number: Option<i64>) -> bool
    ensures { result ≡ is_server_id number }
{
    match number {
        None => true,
        Some(number) => 0 <= number,
    }
}

fn is_beat(beat: &ShownBeat) -> bool
    ensures { result ≡ is_beat beat.now }
{
    beat.address.is_regular() && is_server_id(beat.server)
}

/// Addresses and errors keep their rules, and a server's number isn't negative.
pub fn is_shown(event: &ShownSdam) -> bool
    ensures { result ≡ is_shown event.now }
{
    match event {
        ShownSdam::ServerChanged(address, _, _) => address.is_regular(),
        ShownSdam::ServerOpening(address) => address.is_regular(),
        ShownSdam::ServerClosed(address) => address.is_regular(),
        ShownSdam::TopologyChanged(_, _, _, _) => true,
        ShownSdam::TopologyOpening => true,
        ShownSdam::TopologyClosed => true,
        ShownSdam::Started(beat) => is_beat(beat),
        ShownSdam::Succeeded(beat, _) => is_beat(beat),
        ShownSdam::Failed(beat, _, error) => is_beat(beat) && is_error(error),
    }
}

fn beat_types(beat: &ShownBeat)
    ensures { IsBeatOfTypes beat.now }
{
    let _driver = beat.driver;
    signed(beat.server);
}

/// The numbers of an event are those of its types.
pub fn shown_types(event: &ShownSdam)
    ensures { IsShownOfTypes event.now }
{
    match event {
        ShownSdam::TopologyChanged(_, count, _, size) => {
            let _numbers = (*count, *size);
        }
        ShownSdam::Started(beat) => beat_types(beat),
        ShownSdam::Succeeded(beat, duration) => {
            let _number = *duration;
            beat_types(beat);
        }
        ShownSdam::Failed(beat, duration, error) => {
            let _number = *duration;
            beat_types(beat);
            error_types(error);
        }
        _ => {}
    }
}
