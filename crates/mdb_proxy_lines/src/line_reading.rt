//! Reading the lines of a proxy script from the third on.

ghost use Rattle.std.specs.Prelude.{◌≡◌, ◌<◌, ◌^◌, ◌++◌, ℕ, codes, decimal, true, IfOk, IsTrue};
ghost use Rattle.mdb_base.specs.AddressReading.{beyond};
ghost use Rattle.mdb_base.specs.AddressRule.{is_address};
ghost use Rattle.mdb_base.specs.Spelling.{address};
ghost use Rattle.mdb_base.specs.declared.address.ServerAddress.{ServerAddress as AddressRecord};
ghost use Rattle.mdb_log.specs.declared.step.Use.{Use as UseData};
ghost use Rattle.mdb_lines.specs.Grammar.{is_printable};
ghost use Rattle.mdb_lines.specs.Spelling.{use_text};
ghost use Rattle.mdb_parts.specs.Reading.{Gives};
ghost use Rattle.mdb_proxies.specs.declared.step.ProxyAct.TheVariants.{Ask as IsAsk, Finish as IsFinish};
ghost use Rattle.mdb_proxies.specs.declared.step.ProxyStep.{ProxyStep as StepRecord};
ghost use Rattle.mdb_proxy_lines.specs.ProxyLines.{SpellsStep, act_text};
ghost use Rattle.mdb_proxy_lines.specs.ProxyForms.{word_of, IsOther, ReadsOther};

use mdb_base::{Moment, OutOfMemory, ServerAddress, cut};
use mdb_lines::read_line;
use mdb_log::{Act, Step, Use};
use mdb_parts::LineError;
use mdb_parts::fields::{u32_field, u64_field};
use mdb_parts::values::address_word;
use mdb_parts::words::last;
use mdb_proxies::{ProxyAct, ProxyStep, is_passed};
use std::alloc::Global;

// The first word of a line.
#[derive(Clone, Copy)]
enum Word {
    Ask,
    Finish,
    Other,
}

#[tactic(auto, unfolding(crate::specs::ProxyForms::word_of))]
fn word_of(word: &str) -> Word
    ensures { result ≡ word_of word.now }
{
    if word == "ask" {
        Word::Ask
    } else if word == "finish" {
        Word::Finish
    } else {
        Word::Other
    }
}

// What stands behind the word of an ask: a moment, a tenant, a request and an address.
#[tactic(auto, using(mdb_parts::proofs::TextLemmas::follows))]
fn parts_of_ask(alloc: Global, text: &str) -> Result<(Moment, u32, u32, ServerAddress), LineError>
    ensures { (m t n : ℕ) (a : AddressRecord) → m < 2 ^ 64 → t < 2 ^ 32 → n < 2 ^ 32 → is_address a ≡ true
        → text.now ≡ codes " " ++ (decimal m ++ (codes " " ++ (decimal t ++ (codes " " ++ (decimal n ++ (codes " " ++ address a)))))) → Gives (m, t, n, a) result }
{
    let (moment, rest) = u64_field(text, " ")?;
    let (tenant, rest) = u32_field(rest, " ")?;
    let (request, rest) = u32_field(rest, " ")?;
    let word = last(rest, " ")?;
    let address = address_word(alloc, word)?;
    Ok((moment, tenant, request, address))
}

// The line spells the ask.
fn is_ask(
    alloc: Global,
    line: &str,
    moment: Moment,
    tenant: u32,
    request: u32,
    address: &ServerAddress,
) -> Result<bool, OutOfMemory>
    requires { IsTrue (is_printable line.now) }
    ensures yes { IfOk result (λ spelled. spelled ≡ true → SpellsStep line.now (record { moment = moment; act = IsAsk tenant request address.now })) }
    ensures no { IfOk result (λ spelled. SpellsStep line.now (record { moment = moment; act = IsAsk tenant request address.now }) → spelled ≡ true) }
{
    let text = format!(in alloc; "ask {moment} {tenant} {request} {address}")?;
    Ok(address.is_regular() && text.as_str() == line)
}

// An ask, by what stands behind its word. It is compared with its spelling.
fn ask(alloc: Global, line: &str, text: &str) -> Result<ProxyStep, LineError>
    requires printable { IsTrue (is_printable line.now) }
    requires text { text.now ≡ beyond 32 line.now }
    ensures found { IfOk result (SpellsStep line.now) }
    ensures only { (m t n : ℕ) (a : AddressRecord) → SpellsStep line.now (record { moment = m; act = IsAsk t n a }) → Gives (record { moment = m; act = IsAsk t n a }) result }
{
    let (moment, tenant, request, address) = parts_of_ask(alloc, text)?;
    if !is_ask(alloc, line, moment, tenant, request, &address)? {
        drop(address);
        return Err(LineError::Bad);
    }
    Ok(ProxyStep {
        moment,
        act: ProxyAct::Ask(tenant, request, address),
    })
}

fn word_of_use(used: Use) -> &'static str
    ensures { result.now ≡ use_text used }
{
    match used {
        Use::Ok => "ok",
        Use::Errored => "errored",
        Use::Dropped => "dropped",
        Use::Streaming => "streaming",
    }
}

// The line spells the finish.
fn is_finish(
    alloc: Global,
    line: &str,
    moment: Moment,
    request: u32,
    used: Use,
) -> Result<bool, OutOfMemory>
    requires { IsTrue (is_printable line.now) }
    ensures yes { IfOk result (λ spelled. spelled ≡ true → SpellsStep line.now (record { moment = moment; act = IsFinish request used })) }
    ensures no { IfOk result (λ spelled. SpellsStep line.now (record { moment = moment; act = IsFinish request used }) → spelled ≡ true) }
{
    let word = word_of_use(used);
    let text = format!(in alloc; "finish {moment} {request} {word}")?;
    Ok(text.as_str() == line)
}

// What stands behind the word of a finish, a moment, a request and how the connection was used, is read as that of a return.
fn parts_of_finish(alloc: Global, text: &str) -> Result<(Moment, u32, Use), LineError>
    requires { IsTrue (is_printable text.now) }
    ensures { (m n : ℕ) (used : UseData) → m < 2 ^ 64 → n < 2 ^ 32 → text.now ≡ codes " " ++ (decimal m ++ (codes " " ++ (decimal n ++ (codes " " ++ use_text used)))) → Gives (m, n, used) result }
{
    let line = format!(in alloc; "return{text}")?;
    let Step { moment, act } = read_line(alloc, line.as_bytes(), 2)?;
    match act {
        Act::Return(request, used) => Ok((moment, request, used)),
        act => {
            drop(act);
            Err(LineError::Bad)
        }
    }
}

// A finish, by what stands behind its word. It is compared with its spelling.
fn finish(alloc: Global, line: &str, text: &str) -> Result<ProxyStep, LineError>
    requires printable { IsTrue (is_printable line.now) }
    requires text { text.now ≡ beyond 32 line.now }
    ensures found { IfOk result (SpellsStep line.now) }
    ensures only { (m n : ℕ) (used : UseData) → SpellsStep line.now (record { moment = m; act = IsFinish n used }) → Gives (record { moment = m; act = IsFinish n used }) result }
{
    let (moment, request, used) = parts_of_finish(alloc, text)?;
    if !is_finish(alloc, line, moment, request, used)? {
        return Err(LineError::Bad);
    }
    Ok(ProxyStep {
        moment,
        act: ProxyAct::Finish(request, used),
    })
}

// The step of a collect, or of an act that is passed.
fn other_step(moment: Moment, act: Act) -> Result<ProxyStep, LineError>
    ensures { IsOther moment act result }
{
    match act {
        Act::Collect(request) => Ok(ProxyStep {
            moment,
            act: ProxyAct::Collect(request),
        }),
        act => {
            if !is_passed(&act) {
                drop(act);
                return Err(LineError::Bad);
            }
            Ok(ProxyStep {
                moment,
                act: ProxyAct::Pass(act),
            })
        }
    }
}

// A collect, or an act that is passed.
fn other(alloc: Global, line: &str) -> Result<ProxyStep, LineError>
    ensures found { IfOk result (SpellsStep line.now) }
    ensures only { ReadsOther line.now result }
{
    let Step { moment, act } = read_line(alloc, line.as_bytes(), 2)?;
    other_step(moment, act)
}

/// The step that a line spells, given without its newline. `Bad` where it spells none.
pub fn read_proxy_line(alloc: Global, line: &str) -> Result<ProxyStep, LineError>
    requires { IsTrue (is_printable line.now) }

    // The line spells what is read.
    ensures found { IfOk result (SpellsStep line.now) }

    // What the line spells is read, unless memory ran out.
    ensures only { (s : StepRecord) → SpellsStep line.now s → Gives s result }
{
    let (word, rest) = cut(line, ' ');
    match word_of(word) {
        Word::Ask => ask(alloc, line, rest),
        Word::Finish => finish(alloc, line, rest),
        Word::Other => other(alloc, line),
    }
}
