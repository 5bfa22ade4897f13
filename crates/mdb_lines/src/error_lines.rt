//! Reading the lines that tell of errors.

ghost use Rattle.std.specs.Prelude.{◌≡◌, ◌++◌, codes, Option, IfSome, option_map, true};
ghost use Rattle.mdb_base.specs.ErrorText.{error_text};
ghost use Rattle.mdb_base.specs.Spelling.{object_id};
ghost use Rattle.mdb_base.specs.declared.error.Error.{Error};
ghost use Rattle.mdb_base.specs.declared.object_id.ObjectId.{ObjectId};
ghost use Rattle.mdb_log.specs.declared.step.FailedAt.{FailedAt};
ghost use Rattle.mdb_log.specs.declared.step.FailedAt.TheVariants as at;
ghost use Rattle.mdb_parts.specs.ErrorParts.{is_error, IsErrorOfTypes};
ghost use Rattle.mdb_parts.specs.Parts.{part_text};
ghost use Rattle.mdb_parts.specs.Reading.{Gives};
ghost use Rattle.mdb_parts.specs.Types.{IsIdOfTypes};
ghost use Rattle.mdb_lines.specs.Spelling.{failed_at_text};
ghost use Rattle.mdb_lines.specs.Types.{IsFailedAtOfTypes};
ghost use Rattle.mdb_lines.specs.Forms.{ReadsError, ReadsFailed};

use mdb_base::{Error, ObjectId, cut};
use mdb_events::Boxed;
use mdb_log::{Act, FailedAt, Step};
use mdb_parts::fields::{u32_field, u64_field};
use mdb_parts::values::id_word;
use mdb_parts::words::{after, last};
use mdb_parts::{LineError, error};
use std::alloc::Global;

/// An operation met an error: a moment, the party and the error.
#[tactic(auto, using(mdb_parts::proofs::TextLemmas::follows))]
pub(crate) fn met(alloc: Global, text: &str) -> Result<Step, LineError>
    ensures { ReadsError text.now result }
{
    let (moment, rest) = u64_field(text, " ")?;
    let (party, rest) = u32_field(rest, " ")?;
    let error = error(alloc, rest)?;
    let act = Act::Error(party, Boxed::new(alloc, error)?);
    Ok(Step { moment, act })
}

// The service that stands before an error, if it is there.
fn service(text: &str) -> (Option<ObjectId>, &str)
    ensures { (o : Option ObjectId) (e : Error) → IfSome o IsIdOfTypes → text.now ≡ part_text (codes " sid=") (option_map object_id o) ++ (codes " " ++ error_text e)
        → (result.0 ≡ o) × (result.1.now ≡ codes " " ++ error_text e) }
{
    match after(text, " sid=") {
        None => (None, text),
        Some(rest) => {
            let (word, left) = cut(rest, ' ');
            (id_word(word), left)
        }
    }
}

fn late(alloc: Global, text: &str) -> Result<(FailedAt, Error), LineError>
    ensures { (o : Option ObjectId) (e : Error) → IfSome o IsIdOfTypes → IsErrorOfTypes e → is_error e ≡ true
        → text.now ≡ codes " post" ++ (part_text (codes " sid=") (option_map object_id o) ++ (codes " " ++ error_text e)) → Gives (at.Post o, e) result }
{
    let rest = last(text, " post")?;
    let (service, rest) = service(rest);
    let error = error(alloc, rest)?;
    Ok((FailedAt::Post(service), error))
}

// When establishing failed, and why.
fn failure(alloc: Global, text: &str) -> Result<(FailedAt, Error), LineError>
    ensures { (at : FailedAt) (e : Error) → IsFailedAtOfTypes at → IsErrorOfTypes e → is_error e ≡ true
        → text.now ≡ failed_at_text at ++ (codes " " ++ error_text e) → Gives (at, e) result }
{
    match after(text, " pre") {
        Some(rest) => {
            let error = error(alloc, rest)?;
            Ok((FailedAt::Pre, error))
        }
        None => late(alloc, text),
    }
}

/// A connection failed before it was established: a moment, the pool, the connection, when it failed and why.
#[tactic(auto, using(mdb_parts::proofs::TextLemmas::follows, crate::proofs::FailureLemmas::failure_follows))]
pub(crate) fn failed(alloc: Global, text: &str) -> Result<Step, LineError>
    ensures { ReadsFailed text.now result }
{
    let (moment, rest) = u64_field(text, " ")?;
    let (pool, rest) = u32_field(rest, " ")?;
    let (id, rest) = u32_field(rest, " ")?;
    let (at, error) = failure(alloc, rest)?;
    let act = Act::Failed(pool, id, at, Boxed::new(alloc, error)?);
    Ok(Step { moment, act })
}
