//! The values of a row, as they stand there.
ghost use Rattle.std.specs.Prelude.{◌≡◌, ◌≢◌, ℕ, Bool, List, IfSome, IsNone, pos};
ghost use Rattle.sqlite.specs.declared.types.Value.TheVariants.{Int, Text, Blob};
ghost use Rattle.sqlite_value.specs.Order.{column};
ghost use Rattle.spool_sql.specs.Stored.{flag_number};

use sqlite::Row;
use sqlite_value::value::ValueRef;

pub(crate) fn int_at(row: &Row, at: usize) -> Option<i64>
    ensures found { IfSome result (λ n. column row.now at ≡ Int n) }
    ensures other { IsNone result → (n : _) → column row.now at ≢ Int n }
{
    match row.get_ref(at) {
        Ok(ValueRef::Int(number)) => Some(number),
        _ => None,
    }
}

pub(crate) fn number_at(row: &Row, at: usize) -> Option<u64>
    ensures found { IfSome result (λ n. column row.now at ≡ Int (pos n)) }
    ensures other { IsNone result → (n : ℕ) → column row.now at ≢ Int (pos n) }
{
    match int_at(row, at) {
        Some(number) if number >= 0 => Some(number as u64),
        _ => None,
    }
}

pub(crate) fn flag_at(row: &Row, at: usize) -> Option<bool>
    ensures found { IfSome result (λ flag. column row.now at ≡ Int (pos (flag_number flag))) }
    ensures other { IsNone result → (flag : Bool) → column row.now at ≢ Int (pos (flag_number flag)) }
{
    match number_at(row, at)? {
        0 => Some(false),
        1 => Some(true),
        _ => None,
    }
}

pub(crate) fn text_at(row: &Row, at: usize) -> Option<&[u8]>
    ensures found { IfSome result (λ text. column row.now at ≡ Text text.now) }
    ensures other { IsNone result → (text : List ℕ) → column row.now at ≢ Text text }
{
    match row.get_ref(at) {
        Ok(ValueRef::Text(text)) => Some(text),
        _ => None,
    }
}

pub(crate) fn blob_at(row: &Row, at: usize) -> Option<&[u8]>
    ensures found { IfSome result (λ bytes. column row.now at ≡ Blob bytes.now) }
    ensures other { IsNone result → (bytes : List ℕ) → column row.now at ≢ Blob bytes }
{
    match row.get_ref(at) {
        Ok(ValueRef::Blob(bytes)) => Some(bytes),
        _ => None,
    }
}
