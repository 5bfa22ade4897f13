//! Reading what hellos and checks came to: what stands behind the pool and the duration.

ghost use Rattle.std.specs.Prelude.{◌≡◌, ◌<◌, ◌^◌, ◌++◌, ℕ, Bool, true, false, codes, decimal};
ghost use Rattle.mdb_base.specs.ErrorText.{error_text};
ghost use Rattle.mdb_base.specs.declared.error.Error.{Error};
ghost use Rattle.mdb_hello.specs.declared.response.HelloCommandResponse.{HelloCommandResponse};
ghost use Rattle.mdb_log.specs.declared.checked.HelloResult.{HelloResult};
ghost use Rattle.mdb_log.specs.declared.checked.HelloResult.TheVariants as hello;
ghost use Rattle.mdb_log.specs.declared.checked.BeatenResult.{BeatenResult};
ghost use Rattle.mdb_log.specs.declared.checked.BeatenResult.TheVariants as beaten;
ghost use Rattle.mdb_parts.specs.ErrorParts.{is_error, IsErrorOfTypes};
ghost use Rattle.mdb_parts.specs.Reading.{Gives};
ghost use Rattle.mdb_replies.specs.ReplyParts.{fields_text, is_reply, IsReplyOfTypes};
ghost use Rattle.mdb_lines.specs.Grammar.{is_hello, is_beaten};
ghost use Rattle.mdb_lines.specs.Spelling.{hello_text, beaten_text};
ghost use Rattle.mdb_lines.specs.Types.{IsHelloOfTypes, IsBeatenOfTypes};

use mdb_events::Boxed;
use mdb_log::{BeatenResult, HelloResult};
use mdb_parts::fields::u64_field;
use mdb_parts::words::{after, last};
use mdb_parts::{LineError, error};
use mdb_replies::reply;
use std::alloc::Global;

fn answered(alloc: Global, text: &str) -> Result<HelloResult, LineError>
    ensures { (rtt : ℕ) (r : HelloCommandResponse) → rtt < 2 ^ 64 → IsReplyOfTypes r → is_reply r ≡ true → text.now ≡ codes " rtt=" ++ (decimal rtt ++ fields_text r false)
        → Gives (hello.Ok rtt r) result }
{
    let (rtt, rest) = u64_field(text, " rtt=")?;
    let (reply, _more) = reply(alloc, rest)?;
    let held = Boxed::new(alloc, reply)?;
    Ok(HelloResult::Ok(rtt, held))
}

fn unanswered(alloc: Global, text: &str) -> Result<HelloResult, LineError>
    ensures { (e : Error) → IsErrorOfTypes e → is_error e ≡ true → text.now ≡ codes " err" ++ (codes " " ++ error_text e) → Gives (hello.Err e) result }
{
    let rest = last(text, " err")?;
    let error = error(alloc, rest)?;
    Ok(HelloResult::Err(Boxed::new(alloc, error)?))
}

/// What a hello came to.
pub(crate) fn hello_outcome(alloc: Global, text: &str) -> Result<HelloResult, LineError>
    ensures { (came : HelloResult) → IsHelloOfTypes came → is_hello came ≡ true → text.now ≡ hello_text came → Gives came result }
{
    match after(text, " ok") {
        Some(rest) => answered(alloc, rest),
        None => unanswered(alloc, text),
    }
}

fn succeeded(alloc: Global, text: &str) -> Result<BeatenResult, LineError>
    ensures { (r : HelloCommandResponse) (more : Bool) → IsReplyOfTypes r → is_reply r ≡ true → text.now ≡ fields_text r more → Gives (beaten.Ok r more) result }
{
    let (reply, more) = reply(alloc, text)?;
    let held = Boxed::new(alloc, reply)?;
    Ok(BeatenResult::Ok(held, more))
}

fn failed(alloc: Global, text: &str) -> Result<BeatenResult, LineError>
    ensures { (e : Error) → IsErrorOfTypes e → is_error e ≡ true → text.now ≡ codes " " ++ error_text e → Gives (beaten.Err e) result }
{
    let error = error(alloc, text)?;
    Ok(BeatenResult::Err(Boxed::new(alloc, error)?))
}

fn cancelled(alloc: Global, text: &str) -> Result<BeatenResult, LineError>
    ensures { (e : Error) → IsErrorOfTypes e → is_error e ≡ true → text.now ≡ codes " cancelled" ++ (codes " " ++ error_text e) → Gives (beaten.Cancelled e) result }
{
    let rest = last(text, " cancelled")?;
    let error = error(alloc, rest)?;
    Ok(BeatenResult::Cancelled(Boxed::new(alloc, error)?))
}

/// What a check came to.
pub(crate) fn beaten_outcome(alloc: Global, text: &str) -> Result<BeatenResult, LineError>
    ensures { (came : BeatenResult) → IsBeatenOfTypes came → is_beaten came ≡ true → text.now ≡ beaten_text came → Gives came result }
{
    match after(text, " ok") {
        Some(rest) => succeeded(alloc, rest),
        None => match after(text, " err") {
            Some(rest) => failed(alloc, rest),
            None => cancelled(alloc, text),
        },
    }
}
