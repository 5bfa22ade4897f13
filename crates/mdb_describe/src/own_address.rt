//! Whether a server names another address as its own.

ghost use Rattle.std.specs.Prelude.{◌≡◌, ◌++◌, ℕ, List, [], nat_eq, codes, decimal, option_copied};
ghost use Rattle.std.specs.Cmp.Lexicographic.{pointwise};
ghost use Rattle.mdb_base.specs.Spelling.{address as spelling};
ghost use Rattle.mdb_describe.specs.Listed.{lower};
ghost use Rattle.mdb_describe.specs.Fields.{names, invalid_me};

use crate::description::ServerDescription;
use itoa::Buffer;
use mdb_base::{ServerAddress, has_colon};

impl ServerDescription {
    /// The `me` of the reply, its ASCII letters lowered, is not the text of the server's address. False where there is
    /// no reply or no `me`. No memory is taken.
    pub fn invalid_me(&self) -> bool
        ensures { result ≡ invalid_me self.now }
    {
        match self.me() {
            Some(me) => !is_text_of(me.as_str(), &self.address),
            None => false,
        }
    }
}

// The text in lower case is that of the address.
fn is_text_of(text: &str, address: &ServerAddress) -> bool
    ensures { result ≡ pointwise nat_eq (lower text.now) (spelling address.now) }
{
    if has_colon(address.host()) {
        is_bracketed(text, address.host(), address.port)
    } else {
        is_host_and_port(Some(text.as_bytes()), address.host(), ":", address.port)
    }
}

fn is_bracketed(text: &str, host: &str, port: u16) -> bool
    ensures { result ≡ pointwise nat_eq (lower text.now) (codes "[" ++ (host.now ++ (codes "]:" ++ decimal port))) }
{
    let inner = behind(text.as_bytes(), b"[");
    is_host_and_port(inner, host, "]:", port)
}

// The text is there, and in lower case it is the host, what stands between, and the port.
fn is_host_and_port(text: Option<&[u8]>, host: &str, between: &str, port: u16) -> bool
    ensures { result ≡ names (host.now ++ (between.now ++ decimal port)) (option_copied text.entry) }
{
    let rest = after(text, host.as_bytes());
    let digits = after(rest, between.as_bytes());
    let mut buffer = Buffer::new();
    let end = after(digits, buffer.format(port).as_bytes());
    is_empty(end)
}

fn is_empty(text: Option<&[u8]>) -> bool
    ensures { result ≡ names [] (option_copied text.entry) }
{
    match text {
        Some(text) => text.is_empty(),
        None => false,
    }
}

// What stands behind a piece, where the text is there and in lower case begins with it.
fn after<'a>(text: Option<&'a [u8]>, piece: &[u8]) -> Option<&'a [u8]>
    ensures { (rest : List ℕ) → names (piece.now ++ rest) (option_copied text.entry) ≡ names rest (option_copied result) }
{
    match text {
        Some(text) => behind(text, piece),
        None => None,
    }
}

fn behind<'a>(text: &'a [u8], piece: &[u8]) -> Option<&'a [u8]>
    ensures { (rest : List ℕ) → pointwise nat_eq (lower text.now) (piece.now ++ rest) ≡ names rest (option_copied result) }
{
    let mut left = text;
    for wanted in piece {
        match left.split_first() {
            Some((first, more)) => {
                if first.to_ascii_lowercase() != *wanted {
                    return None;
                }
                left = more;
            }
            None => return None,
        }
    }
    Some(left)
}
