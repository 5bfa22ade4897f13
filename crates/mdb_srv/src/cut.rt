//! Texts cut at a character.
ghost use Rattle.std.specs.Prelude.{◌≡◌, ◌<◌, ◌==◌, [], ◌∷◌};
ghost use Rattle.std.specs.List.{slice_split};
ghost use Rattle.std.specs.Option.{option_map_or};

// What stands before the first `at`, and what stands after it where there is one.
pub(crate) fn cut(text: &str, at: char) -> (&str, Option<&str>)
    requires { at < 128 }
    ensures { slice_split (λ b. b == at) text.now
        ≡ result.0.now ∷ option_map_or (λ rest. slice_split (λ b. b == at) rest.now) result.1 [] }
{
    match text.split_once(at) {
        Some((before, after)) => (before, Some(after)),
        None => (text, None),
    }
}
