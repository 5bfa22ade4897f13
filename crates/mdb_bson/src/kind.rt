//! The types of values.

ghost use Rattle.std.specs.Prelude.{◌≡◌};
ghost use Rattle.mdb_bson.specs.Kinds.{kind_of};

/// How a value is read.
#[derive(Clone, Copy, Debug, PartialEq, Eq)]
pub enum Kind {
    Text,
    Document,
    List,
    Binary,
    Id,
    Bool,
    Date,
    Regex,
    Pointer,
    Code,
    Scoped,
    Int32,
    Int64,
    /// So many bytes, which are passed over.
    Passed(usize),
}

/// The type with this number.
pub fn kind_of(number: u8) -> Option<Kind>
    ensures { result ≡ kind_of number }
{
    match number {
        2 => Some(Kind::Text),
        3 => Some(Kind::Document),
        4 => Some(Kind::List),
        5 => Some(Kind::Binary),
        7 => Some(Kind::Id),
        8 => Some(Kind::Bool),
        9 => Some(Kind::Date),
        11 => Some(Kind::Regex),
        12 => Some(Kind::Pointer),
        13 | 14 => Some(Kind::Code),
        15 => Some(Kind::Scoped),
        16 => Some(Kind::Int32),
        18 => Some(Kind::Int64),
        1 | 17 => Some(Kind::Passed(8)),
        19 => Some(Kind::Passed(16)),
        6 | 10 | 127 | 255 => Some(Kind::Passed(0)),
        _ => None,
    }
}
