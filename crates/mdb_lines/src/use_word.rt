//! How a connection was used, as a word.

ghost use Rattle.std.specs.Prelude.{◌≡◌};
ghost use Rattle.mdb_log.specs.declared.step.Use.{Use};
ghost use Rattle.mdb_lines.specs.Spelling.{use_text};
ghost use Rattle.mdb_parts.specs.Reading.{Gives};

use mdb_log::Use;
use mdb_parts::LineError;

/// How a connection was used.
pub(crate) fn use_word(word: &str) -> Result<Use, LineError>
    ensures { (used : Use) → word.now ≡ use_text used → Gives used result }
{
    if word == "ok" {
        Ok(Use::Ok)
    } else if word == "errored" {
        Ok(Use::Errored)
    } else if word == "dropped" {
        Ok(Use::Dropped)
    } else if word == "streaming" {
        Ok(Use::Streaming)
    } else {
        Err(LineError::Bad)
    }
}
