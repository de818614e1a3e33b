// What the types in a call stand for.
ghost use Rattle.std.specs.Prelude.{◌≡◌, ◌<◌};
ghost use Rattle.plain.specs.Feed.{types_known, first_type, results_from};

use ir::{Type, Value};
use rows::Results;

/// Whether all of them are bits of a live value's type.
pub(crate) fn types_known(types: &[u16]) -> bool
    ensures { result ≡ types_known types.now }
{
    types.iter().all(|ty| Type::try_from(*ty).is_ok())
}

/// The type of the first result, invalid where there is none.
// The definition of what fits takes a type: the invalid one stands for no result, and never for bits that no type has, which
// were refused before.
pub(crate) fn first_type(types: &[u16]) -> Type
    ensures { result ≡ first_type types.now }
{
    types
        .first()
        .map_or(Type::Invalid, |ty| Type::from_bits_or_invalid(*ty))
}

/// The results, numbered from `v` on.
pub(crate) fn results_from(types: &[u16], v: u32) -> Results
    requires { v < 1025 }
    ensures { result ≡ results_from types.now v }
{
    match types {
        [] => Results::Empty,
        [_] => Results::Single(Value(v)),
        [_, _, ..] => Results::Pair(Value(v), Value(v + 1)),
    }
}
