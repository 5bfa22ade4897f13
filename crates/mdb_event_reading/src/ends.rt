//! Reading how a request ended.

ghost use Rattle.std.specs.Prelude.{◌≡◌, true};
ghost use Rattle.mdb_events.specs.FactText.{end_text};
ghost use Rattle.mdb_events.specs.declared.end.End.{End};
ghost use Rattle.mdb_event_reading.specs.EndForms.{is_end, IsEndOfTypes, ReadsEnd, ReadsEndNamed};
ghost use Rattle.mdb_parts.specs.Reading.{Gives};

use crate::end_kind::{EndKind, end_kind};
use mdb_base::cut;
use mdb_events::{End, Boxed};
use mdb_parts::{LineError, error, error_types, is_error};
use std::alloc::Global;

fn read_kind(alloc: Global, kind: EndKind, text: &str) -> Result<End, LineError>
    ensures { ReadsEnd kind text.now result }
{
    match kind {
        EndKind::Cleared => {
            let error = error(alloc, text)?;
            Ok(End::Cleared(Boxed::new(alloc, error)?))
        }
        EndKind::Failed => {
            let error = error(alloc, text)?;
            Ok(End::Failed(Boxed::new(alloc, error)?))
        }
        EndKind::Closed => Ok(End::Closed),
        EndKind::Warmed => Ok(End::Warmed),
        EndKind::Filled => Ok(End::Filled),
        EndKind::GaveUp => Ok(End::GaveUp),
        EndKind::TimedOut => Ok(End::TimedOut),
    }
}

fn read_named(alloc: Global, text: &str) -> Result<End, LineError>
    ensures { ReadsEndNamed text.now result }
{
    let (name, rest) = cut(text, ' ');
    match end_kind(name) {
        Some(kind) => read_kind(alloc, kind, rest),
        None => Err(LineError::Bad),
    }
}

/// The end that a text spells. It may take more than is spelled: what is read is compared with its text.
pub fn read_end(alloc: Global, text: &str) -> Result<End, LineError>
    ensures { (e : End) → IsEndOfTypes e → is_end e ≡ true → text.now ≡ end_text e → Gives e result }
{
    read_named(alloc, text)
}

/// The error of an end keeps the rules of errors.
pub fn is_end(end: &End) -> bool
    ensures { result ≡ is_end end.now }
{
    match end {
        End::Cleared(error) => is_error(error.get()),
        End::Failed(error) => is_error(error.get()),
        _ => true,
    }
}

/// The numbers of an end are those of its types.
pub fn end_types(end: &End)
    ensures { IsEndOfTypes end.now }
{
    match end {
        End::Cleared(error) => error_types(error.get()),
        End::Failed(error) => error_types(error.get()),
        _ => {}
    }
}
