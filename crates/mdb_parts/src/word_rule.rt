//! Which words names and labels are.

ghost use Rattle.std.specs.Prelude.{◌≡◌};
ghost use Rattle.std.specs.List.{list_all};
ghost use Rattle.mdb_parts.specs.WordRule.{is_word_byte, is_word, keeps};

use mdb_base::Text;

fn is_word_byte(b: u8) -> bool
    ensures { result ≡ is_word_byte b }
{
    b.is_ascii_alphanumeric() || b == b'_' || b == b'-' || b == b'.'
}

fn all_of_word(bytes: &[u8]) -> bool
    ensures { result ≡ list_all is_word_byte bytes.now }
{
    bytes.iter().all(|b| is_word_byte(*b))
}

/// The text has 1 to 64 letters, digits, `_`, `-` and `.`.
#[tactic(auto, unfolding(crate::specs::WordRule::is_word))]
pub fn is_word(text: &str) -> bool
    ensures { result ≡ is_word text.now }
{
    let bytes = text.as_bytes();
    1 <= bytes.len() && bytes.len() <= 64 && all_of_word(bytes)
}

/// The text, where it is there, is a word.
pub fn is_optional_word(text: &Option<Text>) -> bool
    ensures { result ≡ keeps is_word text.now }
{
    match text {
        Some(text) => is_word(text.as_str()),
        None => true,
    }
}
