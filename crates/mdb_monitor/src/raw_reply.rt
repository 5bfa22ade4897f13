//! The documents of replies, as events carry them.

ghost use Rattle.std.specs.Prelude.{◌≡◌, IfOk};
ghost use Rattle.mdb_monitor.specs.RawReply.{without_authentication};

use mdb_base::{Document, OutOfMemory};

/// A copy of the document without what it says of an authentication.
pub fn without_authentication(raw: &Document) -> Result<Document, OutOfMemory>
    ensures { IfOk result (λ d. d ≡ without_authentication raw.now) }
{
    let mut doc = raw.as_doc().clone()?;
    doc.fields
        .retain(|field| field.0.as_str() != "speculativeAuthenticate");
    Ok(Document::new(doc))
}
