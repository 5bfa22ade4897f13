//! The tags of a server.

ghost use Rattle.std.specs.Prelude.{◌≡◌, IsTrue, Some, None, if◌then◌else◌};
ghost use Rattle.mdb_base.specs.Tags.{is_by_name, is_below_first};

use crate::items::Items;
use crate::text::Text;
use std::alloc::AllocError;
use std::marker::Model;

/// Names with their values, as an operator gave them to a server. They stand by name, in the order of the names'
/// bytes, and names are distinct. Contracts see the list of the pairs.
#[derive(Debug, Drop)]
pub struct TagSet {
    pub pairs: Items<(Text, Text)>,
}

impl Model for TagSet {
    ghost use Rattle.std.specs.Prelude.{List, IsTrue};
    ghost use Rattle.mdb_base.specs.Tags.{Tag, is_by_name};

    ghost Value = { List Tag };

    ghost view = { λ t. t.pairs };

    ghost invariant = { λ t. IsTrue (is_by_name t.pairs) };
}

impl TagSet {
    /// The tags, and `None` where the names do not stand in their order or one comes twice. No memory is taken.
    pub fn new(pairs: Items<(Text, Text)>) -> Option<TagSet>
        ensures { result ≡ (if is_by_name pairs then Some pairs else None) }
    {
        if stand_by_name(pairs.as_slice()) {
            Some(TagSet { pairs })
        } else {
            None
        }
    }

    /// The tags in the order of their names.
    pub fn as_slice(&self) -> &[(Text, Text)]
        ensures same { result.now ≡ self.now }
        ensures order { IsTrue (is_by_name self.now) }
    {
        self.pairs.as_slice()
    }
}

// Whether each name is below the next one.
fn stand_by_name(pairs: &[(Text, Text)]) -> bool
    ensures { result ≡ is_by_name pairs.now }
{
    let mut rest = pairs;
    while let [first, more @ ..] = rest {
        if !comes_before_first(&first.0, more) {
            return false;
        }
        rest = more;
    }
    true
}

fn comes_before_first(name: &Text, more: &[(Text, Text)]) -> bool
    ensures { result ≡ is_below_first name.now more.now }
{
    match more {
        [] => true,
        [second, ..] => name.as_str() < second.0.as_str(),
    }
}

impl Clone for TagSet {
    ghost is_clone = { λ s t. t ≡ s };

    fn clone(&self) -> Result<TagSet, AllocError> {
        Ok(TagSet {
            pairs: self.pairs.clone()?,
        })
    }
}
