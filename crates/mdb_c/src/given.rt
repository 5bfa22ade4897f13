//! Texts as they are given to a caller.

ghost use Rattle.std.specs.Prelude.{◌≡◌, ◌≢◌, ◌<◌, ◌++◌, length, drop, IfOk, Some, option_map, option_copied, string_bytes};
ghost use Rattle.mdb_base.specs.Spelling.{object_id};
ghost use Rattle.mdb_parts.specs.Parts.{texts};
ghost use Rattle.mdb_c.specs.Giving.{IsGiven, LacksRoom};

use mdb_base::{Items, ObjectId, OutOfMemory, Text};
use mdb_session::{NO_ROOM, OK, Status, copied};
use std::alloc::Global;
use std::fmt;

// Texts with commas between them.
#[derive(Drop)]
struct Listed<'a>(&'a [Text]);

impl fmt::Display for Listed<'_> {
    ghost use Rattle.std.specs.Prelude.{Some};
    ghost use Rattle.mdb_parts.specs.Parts.{texts};

    ghost output = { λ x. Some (texts x.0.now) };

    fn fmt<W: fmt::Write>(&self, f: &mut fmt::Formatter<W>) -> fmt::Result {
        match self.0 {
            [] => Ok(()),
            [first, more @ ..] => {
                write!(f, "{first}")?;
                for text in more {
                    write!(f, ",{text}")?;
                }
                Ok(())
            }
        }
    }
}

/// A copy of the text, if there is one.
pub fn text_of(alloc: Global, text: Option<&str>) -> Result<Option<String>, OutOfMemory>
    ensures { IfOk result (λ copy. option_map string_bytes copy ≡ option_copied text.entry) }
{
    match text {
        Some(text) => Ok(Some(format!(in alloc; "{text}")?)),
        None => Ok(None),
    }
}

/// The digits of the id, if there is one.
pub fn text_of_id(alloc: Global, id: Option<ObjectId>) -> Result<Option<String>, OutOfMemory>
    ensures { IfOk result (λ digits. option_map string_bytes digits ≡ option_map object_id id) }
{
    match id {
        Some(id) => Ok(Some(format!(in alloc; "{id}")?)),
        None => Ok(None),
    }
}

/// A copy of a text of a reply, if there is one.
pub fn text_in_reply(alloc: Global, text: &Option<Text>) -> Result<Option<String>, OutOfMemory>
    ensures { IfOk result (λ copy. option_map string_bytes copy ≡ text.now) }
{
    match text {
        Some(text) => Ok(Some(format!(in alloc; "{text}")?)),
        None => Ok(None),
    }
}

/// The texts with commas between them, if they are there.
pub fn list_in_reply(
    alloc: Global,
    list: &Option<Items<Text>>,
) -> Result<Option<String>, OutOfMemory>
    ensures { IfOk result (λ joined. option_map string_bytes joined ≡ option_map texts list.now) }
{
    match list {
        Some(list) => {
            let list = Listed(list.as_slice());
            Ok(Some(format!(in alloc; "{list}")?))
        }
        None => Ok(None),
    }
}

/// Writes the text to the beginning of `out` where it fits there, and how long it is to `needed`.
pub fn give(text: &str, out: &mut [u8], needed: &mut usize) -> Status
    ensures ok { result ≡ OK → out.new ≡ text.now ++ drop (length text.now) out.old }
    ensures room { result ≡ NO_ROOM → length out.old < length text.now }
    ensures other { result ≢ OK → (result ≡ NO_ROOM) × (out.new ≡ out.old) }
    ensures needed { needed.new ≡ length text.now }
{
    let room = out.len();
    let length = copied(text.as_bytes(), out);
    *needed = length;
    if length <= room { OK } else { NO_ROOM }
}

/// Writes the text to the beginning of `out` where it fits there, and how long it is to `needed`. The answer is `whole` where it fits.
pub fn give_as(text: &str, whole: Status, out: &mut [u8], needed: &mut usize) -> Status
    requires { whole ≢ NO_ROOM }
    ensures given { result ≢ NO_ROOM → (result ≡ whole) × IsGiven text.now out.old out.new needed.new }
    ensures room { result ≡ NO_ROOM → LacksRoom text.now out.old needed.new × (out.new ≡ out.old) }
{
    let length = text.len();
    *needed = length;
    if length > out.len() {
        return NO_ROOM;
    }
    out[..length].copy_from_slice(text.as_bytes());
    whole
}
