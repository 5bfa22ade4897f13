//! A document that contracts see as its names and values.

ghost use Rattle.std.specs.Prelude.{◌≡◌};
ghost use Rattle.mdb_base.specs.Document.{doc_content};

use crate::document::Doc;
use std::alloc::AllocError;
use std::marker::Model;

/// A document in a field of another type, seen by contracts as the list of its names and values.
#[derive(Debug, Drop)]
pub struct Document {
    inner: Doc,
}

impl Model for Document {
    ghost use Rattle.std.specs.Prelude.{List};
    ghost use Rattle.mdb_base.specs.Document.{Field, doc_content};

    ghost Value = { List Field };

    ghost use Rattle.mdb_base.specs.DocumentCode.{fields_coded};

    ghost coded = { fields_coded };

    ghost view = { λ d. doc_content d.inner };
}

impl Document {
    /// Keeps the document as it is.
    pub fn new(doc: Doc) -> Document
        ensures { result ≡ doc_content doc }
    {
        Document { inner: doc }
    }

    /// The document, lent.
    pub fn as_doc(&self) -> &Doc
        ensures { doc_content result.now ≡ self.now }
    {
        &self.inner
    }

    /// The document, given back.
    pub fn into_inner(self) -> Doc
        ensures { doc_content result ≡ self }
    {
        self.inner
    }
}

impl Clone for Document {
    ghost is_clone = { λ s t. t ≡ s };

    fn clone(&self) -> Result<Document, AllocError> {
        let inner = self.inner.clone()?;
        Ok(Document { inner })
    }
}
