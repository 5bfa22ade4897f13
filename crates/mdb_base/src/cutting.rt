//! Texts cut at a character.

ghost use Rattle.std.specs.Prelude.{◌≡◌, ◌<◌};
ghost use Rattle.mdb_base.specs.AddressReading.{until, beyond};

/// What stands before the first such character, and what stands from it on: nothing where there is none.
pub fn cut(text: &str, at: char) -> (&str, &str)
    requires { at < 128 }
    ensures front { result.0.now ≡ until at text.now }
    ensures rest { result.1.now ≡ beyond at text.now }
{
    match text.find(at) {
        Some(place) => (&text[..place], &text[place..]),
        None => (text, ""),
    }
}
