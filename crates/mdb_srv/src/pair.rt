//! Pairs of a key and a value.
ghost use Rattle.std.specs.Prelude.{◌≡◌, ◌==◌, [], ◌∷◌, Err, MatchOption};
ghost use Rattle.std.specs.List.{slice_split};
ghost use Rattle.mdb_srv.specs.Refusals as refusals;
ghost use Rattle.mdb_srv.specs.Txt.{option_of};

use super::cut::cut;

// What stands before and after the equals sign, where there is just one.
pub(crate) fn pair(part: &str) -> Option<(&str, &str)>
    ensures { MatchOption result
        (option_of part.now ≡ Err (refusals.not_a_pair part.now))
        (λ p. slice_split (λ b. b == 61) part.now ≡ p.0.now ∷ p.1.now ∷ []) }
{
    let (key, rest) = cut(part, '=');
    let (value, more) = cut(rest?, '=');
    if more.is_none() {
        Some((key, value))
    } else {
        None
    }
}
