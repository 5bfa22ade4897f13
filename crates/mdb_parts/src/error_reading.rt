//! Reading an error: what stands behind a space.

ghost use Rattle.std.specs.Prelude.{◌≡◌, ◌++◌, ◌∷◌, ℕ, ℤ, List, Option, Some, IfSome, codes, true, option_map, option_copied, FitsSigned};
ghost use Rattle.std.specs.Int.{w32};
ghost use Rattle.std.specs.List.{list_all};
ghost use Rattle.std.specs.Fmt.{signed_decimal};
ghost use Rattle.mdb_base.specs.ErrorText.{kind_text, version_text, error_text};
ghost use Rattle.mdb_base.specs.declared.error.Error.{Error};
ghost use Rattle.mdb_base.specs.declared.error.ErrorKind.{ErrorKind};
ghost use Rattle.mdb_base.specs.declared.error.ErrorKind.TheVariants as kind;
ghost use Rattle.mdb_base.specs.declared.topology_version.TopologyVersion.{TopologyVersion};
ghost use Rattle.mdb_parts.specs.Parts.{Part, parts_text, may_follow};
ghost use Rattle.mdb_parts.specs.ErrorParts.{labels_word, is_version, is_kind, are_labels, is_error, IsVersionOfTypes, IsKindOfTypes, IsErrorOfTypes};
ghost use Rattle.mdb_parts.specs.WordRule.{keeps};
ghost use Rattle.mdb_parts.specs.Reading.{Gives};

use crate::line_error::LineError;
use crate::parts::part;
use crate::texts::{text, texts_word};
use crate::values::id_word;
use crate::words::{after, field, last, signed32, signed64};
use mdb_base::{Error, ErrorKind, Items, ObjectId, Text, TopologyVersion, cut};
use std::alloc::Global;

fn command(word: &str) -> Result<ErrorKind, LineError>
    ensures { (code : ℤ) → FitsSigned w32 code → word.now ≡ codes "command." ++ signed_decimal code → Gives (kind.Command code) result }
{
    let digits = last(word, "command.")?;
    let code = signed32(digits).ok_or(LineError::Bad)?;
    Ok(ErrorKind::Command(code))
}

fn kind_word(word: &str) -> Result<ErrorKind, LineError>
    ensures { (k : ErrorKind) → IsKindOfTypes k → word.now ≡ kind_text k → Gives k result }
{
    if word == "network" {
        Ok(ErrorKind::Network)
    } else if word == "timeout" {
        Ok(ErrorKind::NetworkTimeout)
    } else if word == "auth" {
        Ok(ErrorKind::Auth)
    } else if word == "incompatible" {
        Ok(ErrorKind::IncompatibleServer)
    } else if word == "other" {
        Ok(ErrorKind::Other)
    } else {
        command(word)
    }
}

fn labels(alloc: Global, word: Option<&str>) -> Result<Items<Text>, LineError>
    ensures { (all : List (List ℕ)) → are_labels all ≡ true → option_copied word.entry ≡ labels_word all → Gives all result }
{
    match word {
        Some(word) => texts_word(alloc, word),
        None => Ok(Items::new(Vec::new(alloc))),
    }
}

fn version_of(process_id: Option<ObjectId>, counter: Option<i64>) -> Option<TopologyVersion>
    ensures { (v : TopologyVersion) → process_id ≡ Some v.process_id → counter ≡ Some v.counter → result ≡ Some v }
{
    match (process_id, counter) {
        (Some(process_id), Some(counter)) => Some(TopologyVersion {
            process_id,
            counter,
        }),
        _ => None,
    }
}

/// A topology version, if the word is one.
pub fn version_word(word: &str) -> Option<TopologyVersion>
    ensures { (v : TopologyVersion) → IsVersionOfTypes v → is_version v ≡ true → word.now ≡ version_text v → result ≡ Some v }
{
    let (id, rest) = cut(word, '.');
    match after(rest, ".") {
        Some(digits) => version_of(id_word(id), signed64(digits)),
        None => None,
    }
}

fn optional_version(word: Option<&str>) -> Option<TopologyVersion>
    ensures { (o : Option TopologyVersion) → IfSome o IsVersionOfTypes → keeps is_version o ≡ true → option_copied word.entry ≡ option_map version_text o → result ≡ o }
{
    match word {
        None => None,
        Some(word) => version_word(word),
    }
}

/// A topology version behind a name.
#[tactic(auto, using(crate::proofs::ErrorLemmas::words_lack_version))]
pub fn version_part<'a>(text: &'a str, name: &str) -> (Option<TopologyVersion>, &'a str)
    ensures { (o : Option TopologyVersion) (ps : List Part) → IfSome o IsVersionOfTypes → keeps is_version o ≡ true → may_follow name.now ps ≡ true → text.now ≡ parts_text ((name.now, option_map version_text o) ∷ ps)
        → (result.0 ≡ o) × (result.1.now ≡ parts_text ps) }
{
    let (word, left) = part(text, name);
    (optional_version(word), left)
}

/// An error behind a space, up to the end of the line.
pub fn error(alloc: Global, line: &str) -> Result<Error, LineError>
    ensures { (e : Error) → IsErrorOfTypes e → is_error e ≡ true → line.now ≡ codes " " ++ error_text e → Gives e result }
{
    let (word, rest) = field(line, " ")?;
    let kind = kind_word(word)?;
    let (word, rest) = part(rest, " labels=");
    let (topology_version, rest) = version_part(rest, " tv=");
    let message = last(rest, " msg=")?;
    let labels = labels(alloc, word)?;
    let message = text(alloc, message)?;
    Ok(Error {
        kind,
        labels,
        topology_version,
        message,
    })
}
