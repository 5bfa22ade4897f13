//! The line of an entry.

ghost use Rattle.std.specs.Prelude.{◌≡◌, IfOk, string_bytes};
ghost use Rattle.mdb_lines.specs.Spelling.{HasSpelling};
ghost use Rattle.mdb_entries.specs.Shows.{shown_text};

use crate::shown::{Shown, ShownFact};
use mdb_base::OutOfMemory;
use mdb_lines::{ReplyText, write_line};
use std::alloc::Global;
use std::fmt;

// Facts, each behind a bar.
#[derive(Drop)]
struct FactsText<'a>(&'a [ShownFact]);

impl fmt::Display for FactsText<'_> {
    ghost use Rattle.std.specs.Prelude.{Some};
    ghost use Rattle.mdb_entries.specs.Facts.{shown_facts};

    ghost output = { λ x. Some (shown_facts x.0.now) };

    fn fmt<W: fmt::Write>(&self, f: &mut fmt::Formatter<W>) -> fmt::Result {
        for fact in self.0 {
            write!(f, " | {fact}")?;
        }
        Ok(())
    }
}

/// The line of an entry, without its newline.
pub fn write_shown(alloc: Global, shown: &Shown) -> Result<String, OutOfMemory>
    requires { HasSpelling shown.now.step }
    ensures { IfOk result (λ text. string_bytes text ≡ shown_text shown.now) }
{
    let line = write_line(alloc, &shown.step)?;
    let reply = ReplyText(&shown.reply);
    let facts = FactsText(shown.facts.as_slice());
    Ok(format!(in alloc; "{line} | {reply}{facts}")?)
}
