//! A text that contracts see as its bytes.

ghost use Rattle.std.specs.Prelude.{◌≡◌, string_bytes};

use std::alloc::AllocError;
use std::marker::Model;

/// A text, seen by contracts as the list of its bytes.
#[derive(Debug, Drop)]
pub struct Text {
    inner: String,
}

impl Model for Text {
    ghost use Rattle.std.specs.Prelude.{List, ℕ, string_bytes};

    ghost Value = { List ℕ };

    ghost view = { λ t. string_bytes t.inner };
}

impl Text {
    /// Keeps the text as it is.
    pub fn new(text: String) -> Text
        ensures { result ≡ string_bytes text }
    {
        Text { inner: text }
    }

    /// The text, lent.
    pub fn as_str(&self) -> &str
        ensures { result.now ≡ self.now }
    {
        self.inner.as_str()
    }

    /// The text, given back.
    pub fn into_inner(self) -> String
        ensures { string_bytes result ≡ self }
    {
        self.inner
    }
}

impl Clone for Text {
    ghost is_clone = { λ s t. t ≡ s };

    fn clone(&self) -> Result<Text, AllocError> {
        let inner = self.inner.clone()?;
        Ok(Text { inner })
    }
}
