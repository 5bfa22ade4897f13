//! Numbers, truths and kinds of topologies as words.

ghost use Rattle.std.specs.Prelude.{◌≡◌, ◌<◌, ◌^◌, ℕ, ℤ, Option, IfSome, true, int_le, pos, FitsSigned, codes, decimal, ◌++◌};
ghost use Rattle.std.specs.Int.{w64};
ghost use Rattle.mdb_events.specs.Words.{signed_or_dash};
ghost use Rattle.mdb_srv.specs.declared.topology_type.TopologyType.{TopologyType};
ghost use Rattle.mdb_event_reading.specs.SdamTexts.{kind_text, IsServerId};
ghost use Rattle.mdb_parts.specs.Reading.{Gives};

use crate::type_words::topology_type;
use mdb_base::cut;
use mdb_parts::LineError;
use mdb_parts::words::{last, number64, signed64};
use mdb_srv::TopologyType;

/// A server's number of a connection, or none.
pub fn signed_or_dash(word: &str) -> Option<i64>
    ensures { (o : Option ℤ) → IfSome o IsServerId → word.now ≡ signed_or_dash o → result ≡ o }
{
    if word == "-" { None } else { signed64(word) }
}

fn digits(word: &str) -> Result<u64, LineError>
    ensures { (n : ℕ) → n < 2 ^ 64 → word.now ≡ codes "/" ++ decimal n → Gives n result }
{
    let word = last(word, "/")?;
    number64(word).ok_or(LineError::Bad)
}

/// A type of a topology, and how many servers there are.
pub fn kind_and_size(word: &str) -> Result<(TopologyType, u64), LineError>
    ensures { (kind : TopologyType) (n : ℕ) → n < 2 ^ 64 → word.now ≡ kind_text kind n → Gives (kind, n) result }
{
    let (front, rest) = cut(word, '/');
    let kind = topology_type(front)?;
    let size = digits(rest)?;
    Ok((kind, size))
}
