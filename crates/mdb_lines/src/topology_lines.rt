//! Reading the lines of the topology and of those who watch it.

ghost use Rattle.mdb_log.specs.declared.step.Act.TheVariants as act;
ghost use Rattle.mdb_lines.specs.Forms.{ReadsMoment, ReadsParty, ReadsHosts, ReadsTime};

use crate::shapes::{moment, moment_and_party};
use mdb_base::ClusterTime;
use mdb_log::{Act, Step};
use mdb_parts::LineError;
use mdb_parts::fields::u64_field;
use mdb_parts::values::addresses_word;
use mdb_parts::words::{last, number64};
use std::alloc::Global;

/// The hosts that SRV records name: a moment and addresses.
#[tactic(auto, using(mdb_parts::proofs::TextLemmas::follows))]
pub(crate) fn hosts(alloc: Global, text: &str) -> Result<Step, LineError>
    ensures { ReadsHosts text.now result }
{
    let (moment, rest) = u64_field(text, " ")?;
    let word = last(rest, " ")?;
    let hosts = addresses_word(alloc, word)?;
    let act = Act::Hosts(hosts);
    Ok(Step { moment, act })
}

/// A time of the cluster: a moment and the time.
#[tactic(auto, using(mdb_parts::proofs::TextLemmas::follows))]
pub(crate) fn cluster_time(text: &str) -> Result<Step, LineError>
    ensures { ReadsTime text.now result }
{
    let (moment, rest) = u64_field(text, " ")?;
    let word = last(rest, " ")?;
    let time = number64(word).ok_or(LineError::Bad)?;
    let act = Act::ClusterTime(ClusterTime(time));
    Ok(Step { moment, act })
}

/// A watcher wants the servers checked: a moment and the watcher.
pub(crate) fn want(text: &str) -> Result<Step, LineError>
    ensures { ReadsParty (λ watcher. act.Want watcher) text.now result }
{
    let (moment, watcher) = moment_and_party(text)?;
    let act = Act::Want(watcher);
    Ok(Step { moment, act })
}

/// A watcher no longer wants it: a moment and the watcher.
pub(crate) fn unwant(text: &str) -> Result<Step, LineError>
    ensures { ReadsParty (λ watcher. act.Unwant watcher) text.now result }
{
    let (moment, watcher) = moment_and_party(text)?;
    let act = Act::Unwant(watcher);
    Ok(Step { moment, act })
}

/// The driver is stopped: a moment.
pub(crate) fn stop(text: &str) -> Result<Step, LineError>
    ensures { ReadsMoment act.Stop text.now result }
{
    let moment = moment(text)?;
    let act = Act::Stop;
    Ok(Step { moment, act })
}
