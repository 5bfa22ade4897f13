//! Reading an entry.

ghost use Rattle.std.specs.Prelude.{◌≡◌, ◌∷◌, List, drop, map, true, IfOk, OnOk, bytes_eq};
ghost use Rattle.std.specs.List.{AllByRecursion};
ghost use Rattle.mdb_log.specs.declared.reply.Reply.{Reply};
ghost use Rattle.mdb_lines.specs.Grammar.{is_printable};
ghost use Rattle.mdb_lines.specs.Spelling.{HasSpelling};
ghost use Rattle.mdb_lines.specs.LogText.{reply_text};
ghost use Rattle.mdb_entries.specs.declared.shown.Shown.{Shown};
ghost use Rattle.mdb_entries.specs.declared.shown.ShownFact.{ShownFact};
ghost use Rattle.mdb_entries.specs.Facts.{shown_fact, IsFact};
ghost use Rattle.mdb_entries.specs.Pieces.{barred};
ghost use Rattle.mdb_entries.specs.Replies.{IsReply};
ghost use Rattle.mdb_entries.specs.Shows.{shown_text, HasParts, Shows, GivesShown};
ghost use Rattle.mdb_parts.specs.Reading.{Gives};

use crate::entry_text::write_shown;
use crate::facts::read_fact;
use crate::pieces::{next_piece, piece};
use crate::replies::read_reply;
use crate::shown::{Shown, ShownError, ShownFact};
use mdb_base::{Items, OutOfMemory};
use mdb_lines::{is_printable, read_line};
use mdb_log::{Reply, Step};
use mdb_parts::LineError;
use std::alloc::Global;

fn read_facts(alloc: Global, text: &str) -> Result<Items<ShownFact>, LineError>
    ensures found { IfOk result (AllByRecursion IsFact) }
    ensures only { (fs : List ShownFact) → AllByRecursion IsFact fs → text.now ≡ drop 1 (barred (map shown_fact fs)) → Gives fs result }
{
    let mut found = Vec::new(alloc);
    let mut rest = text;
    while !rest.is_empty() {
        let (word, more) = next_piece(rest)?;
        let fact = read_fact(alloc, word)?;
        found.push(fact)?;
        rest = more;
    }
    Ok(Items::new(found))
}

fn answer(alloc: Global, text: &str) -> Result<(Reply, Items<ShownFact>), LineError>
    ensures found { IfOk result (λ x. IsReply x.0 × AllByRecursion IsFact x.1) }
    ensures only { (r : Reply) (fs : List ShownFact) → IsReply r → AllByRecursion IsFact fs → text.now ≡ drop 1 (barred (reply_text r ∷ map shown_fact fs)) → Gives (r, fs) result }
{
    let (word, rest) = next_piece(text)?;
    let facts = read_facts(alloc, rest)?;
    match read_reply(alloc, word) {
        Ok(reply) => Ok((reply, facts)),
        Err(e) => {
            drop(facts);
            Err(e)
        }
    }
}

fn read_parts(alloc: Global, text: &str, number: u32) -> Result<Shown, LineError>
    ensures found { IfOk result (HasParts number) }
    ensures only { (e : Shown) → HasParts number e → text.now ≡ shown_text e → Gives e result }
{
    let (word, rest) = piece(text)?;
    let (reply, facts) = answer(alloc, rest)?;
    match read_line(alloc, word.as_bytes(), number) {
        Ok(step) => Ok(Shown { step, reply, facts }),
        Err(e) => {
            drop(reply);
            drop(facts);
            Err(e)
        }
    }
}

// What a line shows, if it shows anything.
fn guess(alloc: Global, line: &[u8], number: u32) -> Result<Shown, LineError>
    ensures printable { OnOk result (is_printable line.now ≡ true) }
    ensures found { IfOk result (HasParts number) }
    ensures only { (e : Shown) → Shows number line.now e → Gives e result }
{
    if !is_printable(line) {
        return Err(LineError::Bad);
    }
    match str::from_utf8(line) {
        Ok(text) => read_parts(alloc, text, number),
        Err(_) => Err(LineError::Bad),
    }
}

fn is_spelled(alloc: Global, shown: &Shown, line: &[u8]) -> Result<bool, OutOfMemory>
    requires { HasSpelling shown.now.step }
    ensures { IfOk result (λ spelled. spelled ≡ bytes_eq (shown_text shown.now) line.now) }
{
    let spelled = write_shown(alloc, shown)?;
    Ok(spelled.as_bytes() == line)
}

fn read_checked(alloc: Global, line: &[u8], number: u32) -> Result<Shown, LineError>
    ensures found { IfOk result (Shows number line.now) }
    ensures only { (e : Shown) → Shows number line.now e → Gives e result }
{
    let found = guess(alloc, line, number)?;
    match is_spelled(alloc, &found, line) {
        Ok(true) => Ok(found),
        Ok(false) => {
            drop(found);
            Err(LineError::Bad)
        }
        Err(e) => {
            drop(found);
            Err(LineError::from(e))
        }
    }
}

/// The entry that a line shows, given without its newline. The first line of a log has the number 1 and opens, and no
/// other. `Bad` where it shows none.
pub fn read_entry(alloc: Global, line: &[u8], number: u32) -> Result<Shown, ShownError>
    // The line shows what is read.
    ensures found { IfOk result (Shows number line.now) }

    // What the line shows is read, unless memory ran out.
    ensures only { (e : Shown) → Shows number line.now e → GivesShown e result }
{
    match read_checked(alloc, line, number) {
        Ok(shown) => Ok(shown),
        Err(LineError::Bad) => Err(ShownError::Bad),
        Err(LineError::OutOfMemory) => Err(ShownError::OutOfMemory),
    }
}
