//! Values as SQL reads them.
ghost use Rattle.std.specs.Prelude.{◌≡◌, ◌<◌, ◌^◌, pos};
ghost use Rattle.sqlite.specs.declared.types.Value.TheVariants.{Int};
ghost use Rattle.sqlite_value.specs.Value.{owned};

use sqlite_value::value::ValueRef;

/// A number that SQL reads as an integer.
pub fn int<'a>(n: u64) -> ValueRef<'a>
    requires { n < 2 ^ 63 }
    ensures { owned result ≡ Int (pos n) }
{
    ValueRef::Int(n as i64)
}
