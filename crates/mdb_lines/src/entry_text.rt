//! The text of an entry.

ghost use Rattle.std.specs.Prelude.{◌≡◌, ◌++◌, All, IfOk, OnOk, OnErr};
ghost use Rattle.mdb_lines.specs.Spelling.{HasSpelling};
ghost use Rattle.mdb_lines.specs.LogText.{text_of, text_of_entry, what_text};

use crate::line_text::LineText;
use mdb_base::OutOfMemory;
use mdb_events::Fact;
use mdb_log::{Entry, Refused, Reply, What};
use std::alloc::Global;
use std::fmt;

fn word_of(what: What) -> &'static str
    ensures { result.now ≡ what_text what }
{
    match what {
        What::Pool => "pool",
        What::Generation => "generation",
        What::Monitor => "monitor",
        What::Servers => "servers",
    }
}

// A refusal.
#[derive(Drop)]
struct RefusedText(Refused);

impl fmt::Display for RefusedText {
    ghost use Rattle.std.specs.Prelude.{Some};
    ghost use Rattle.mdb_lines.specs.LogText.{refused_text};

    ghost output = { λ x. Some (refused_text x.0) };

    fn fmt<W: fmt::Write>(&self, f: &mut fmt::Formatter<W>) -> fmt::Result {
        match self.0 {
            Refused::TimeBack(m) => write!(f, "TimeBack {m}"),
            Refused::UnknownServer => write!(f, "UnknownServer"),
            Refused::RequestKnown => write!(f, "RequestKnown"),
            Refused::UnknownRequest => write!(f, "UnknownRequest"),
            Refused::NotHolder => write!(f, "NotHolder"),
            Refused::NotPending => write!(f, "NotPending"),
            Refused::Unpinned => write!(f, "Unpinned"),
            Refused::PinInUse => write!(f, "PinInUse"),
            Refused::PinState => write!(f, "PinState"),
            Refused::CheckRunning => write!(f, "CheckRunning"),
            Refused::NotChecking => write!(f, "NotChecking"),
            Refused::WrongMode => write!(f, "WrongMode"),
            Refused::Exhausted(what) => {
                let what = word_of(what);
                write!(f, "Exhausted {what}")
            }
        }
    }
}

/// A reply, as it stands in an entry's text.
#[derive(Drop)]
pub struct ReplyText<'a>(pub &'a Reply);

impl fmt::Display for ReplyText<'_> {
    ghost use Rattle.std.specs.Prelude.{Some};
    ghost use Rattle.mdb_lines.specs.LogText.{reply_text};

    ghost output = { λ x. Some (reply_text x.0.now) };

    fn fmt<W: fmt::Write>(&self, f: &mut fmt::Formatter<W>) -> fmt::Result {
        match self.0 {
            Reply::Pooled(p, c) => write!(f, "Pooled {p}.{c}"),
            Reply::Establishing(p, c) => write!(f, "Establishing {p}.{c}"),
            Reply::Waiting => write!(f, "Waiting"),
            Reply::Ended(end) => write!(f, "Ended {end}"),
            Reply::Job(p, c) => write!(f, "Job {p}.{c}"),
            Reply::NoJob => write!(f, "NoJob"),
            Reply::Changed(changed) => write!(f, "Changed {changed}"),
            Reply::Count(n) => write!(f, "Count {n}"),
            Reply::Done => write!(f, "Done"),
            Reply::Refused(why) => {
                let why = RefusedText(*why);
                write!(f, "Refused {why}")
            }
        }
    }
}

// Facts, each behind a bar.
#[derive(Drop)]
struct FactsText<'a>(&'a [Fact]);

impl fmt::Display for FactsText<'_> {
    ghost use Rattle.std.specs.Prelude.{Some};
    ghost use Rattle.mdb_lines.specs.LogText.{facts_text};

    ghost output = { λ x. Some (facts_text x.0.now) };

    fn fmt<W: fmt::Write>(&self, f: &mut fmt::Formatter<W>) -> fmt::Result {
        for fact in self.0 {
            write!(f, " | {fact}")?;
        }
        Ok(())
    }
}

/// Appends the text of an entry, with its newline.
pub fn write_entry(alloc: Global, entry: &Entry, out: &mut Vec<u8>) -> Result<(), OutOfMemory>
    requires { HasSpelling entry.now.step }
    ensures ok { OnOk result (out.new.items ≡ out.old.items ++ text_of_entry entry.now) }
    ensures err { OnErr result (out.new.items ≡ out.old.items) }
{
    let line = LineText(entry.step.moment, &entry.step.act);
    let reply = ReplyText(&entry.reply);
    let facts = FactsText(entry.facts.as_slice());
    let text = format!(in alloc; "{line} | {reply}{facts}\n")?;
    out.extend_from_slice(text.as_bytes())?;
    Ok(())
}

/// The text of all entries.
pub fn log_text(alloc: Global, entries: &[Entry]) -> Result<Vec<u8>, OutOfMemory>
    requires { All (λ e. HasSpelling e.step) entries.now }
    ensures { IfOk result (λ text. text.items ≡ text_of entries.now) }
{
    let mut text = Vec::new(alloc);
    for entry in entries {
        write_entry(alloc, entry, &mut text)?;
    }
    Ok(text)
}
