//! Reading the lines of connections.

ghost use Rattle.std.specs.Prelude.{◌≡◌, ◌++◌, codes, IfSome, FitsSigned, int_le, pos, true};
ghost use Rattle.std.specs.Int.{w64};
ghost use Rattle.std.specs.Fmt.{signed_decimal};
ghost use Rattle.mdb_log.specs.declared.step.Established.{Established};
ghost use Rattle.mdb_parts.specs.Parts.{parts_text};
ghost use Rattle.mdb_lines.specs.Spelling.{established_parts};
ghost use Rattle.mdb_lines.specs.Types.{IsEstablishedOfTypes};
ghost use Rattle.mdb_parts.specs.Reading.{Gives};
ghost use Rattle.mdb_lines.specs.Forms.{ReadsEstablished};

use mdb_log::{Act, Established, Step};
use mdb_parts::LineError;
use mdb_parts::fields::{i32_field, u32_field, u64_field};
use mdb_parts::parts::{i64_part, id_part};

// What was reported of a connection: its wire version, its service and its server's number.
#[tactic(auto, using(mdb_parts::proofs::PartLemmas::parts_follow))]
fn made(text: &str) -> Result<Established, LineError>
    ensures { (e : Established) → IsEstablishedOfTypes e → IfSome e.server_id (λ z. FitsSigned w64 z × (int_le (pos 0) z ≡ true))
        → text.now ≡ codes " wire=" ++ (signed_decimal e.wire ++ parts_text (established_parts e)) → Gives e result }
{
    let (wire, rest) = i32_field(text, " wire=")?;
    let (service_id, rest) = id_part(rest, " sid=");
    let (server_id, _rest) = i64_part(rest, " server=");
    Ok(Established {
        wire,
        service_id,
        server_id,
    })
}

/// A connection was established: a moment, the pool, the connection, and what was reported.
#[tactic(auto, using(mdb_parts::proofs::TextLemmas::follows, crate::proofs::FormLemmas::server_fits))]
pub(crate) fn established(text: &str) -> Result<Step, LineError>
    ensures { ReadsEstablished text.now result }
{
    let (moment, rest) = u64_field(text, " ")?;
    let (pool, rest) = u32_field(rest, " ")?;
    let (id, rest) = u32_field(rest, " ")?;
    let made = made(rest)?;
    Ok(Step {
        moment,
        act: Act::Established(pool, id, made),
    })
}
