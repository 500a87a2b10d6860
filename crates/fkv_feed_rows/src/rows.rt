//! What a row is: a key and an amount.
ghost use Rattle.std.specs.Prelude.{◌≡◌, ◌∷◌, [], ℕ, ℤ, List, IfSome, IfNone, ◌≤◌, length, IsUtf8};
ghost use Rattle.csv.specs.Records.{fields_of};
ghost use Rattle.fkv_functions.specs.declared.names.Name.{Name};
ghost use Rattle.fkv_feed_rows.specs.Rows.{IsRow};
ghost use Rattle.std.specs.Str.Parse.{starts_with_minus, without_leading_sign};
ghost use Rattle.fkv_feed_rows.specs.Amounts.{amount_of, number_of};

use csv::ByteRecord;
use fkv_functions::Name;
use std::str;

/// The fields of a record of two.
fn two_fields(fields: &ByteRecord) -> Option<(&[u8], &[u8])>
    ensures found { IfSome result (λ p. fields_of fields.now ≡ p.0.now ∷ p.1.now ∷ []) }
    ensures none { IfNone result ((k a : List ℕ) → fields_of fields.now ≡ k ∷ a ∷ [] → ⊥) }
{
    let Some(key) = fields.get(0) else {
        return None;
    };
    let Some(amount) = fields.get(1) else {
        return None;
    };
    match fields.get(2) {
        Some(_) => None,
        None => Some((key, amount)),
    }
}

/// The row that a record is, if it is one.
pub fn row_of(fields: &ByteRecord) -> Option<(Name, i64)>
    ensures row { IfSome result (λ row. IsRow (fields_of fields.now) (row.0, row.1)) }
    ensures none { IfNone result ((row : Name × ℤ) → IsRow (fields_of fields.now) row → ⊥) }
{
    let Some((key, written)) = two_fields(fields) else {
        return None;
    };
    let Some(amount) = amount(written) else {
        return None;
    };
    let Some(name) = Name::new(key) else {
        return None;
    };
    Some((name, amount))
}

/// Numbers of so many digits are below 10^18, and so have 64 bits with either sign.
const FEW: usize = 18;

/// A field as text; what is no text is no amount.
fn text_of(field: &[u8]) -> Option<&str>
    ensures text { IfSome result (λ t. t.now ≡ field.now) }
    ensures none { IfNone result (IsUtf8 field.now → ⊥) }
{
    match str::from_utf8(field) {
        Ok(text) => Some(text),
        Err(_) => None,
    }
}

/// The amount that a field of any length writes, as the standard library parses it.
fn long_amount(field: &[u8]) -> Option<i64>
    ensures { result ≡ amount_of field.now }
{
    let Some(text) = text_of(field) else {
        return None;
    };
    match text.parse::<i64>() {
        Ok(amount) => Some(amount),
        Err(_) => None,
    }
}

/// Whether a field begins with a minus, and what stands behind its sign, if it has one.
fn behind_sign(field: &[u8]) -> (bool, &[u8])
    ensures minus { result.0 ≡ starts_with_minus field.now }
    ensures rest { result.1.now ≡ without_leading_sign field.now }
{
    match field {
        [b'-', rest @ ..] => (true, rest),
        [b'+', rest @ ..] => (false, rest),
        _ => (false, field),
    }
}

/// The number that up to 18 ASCII digits write; none where there is no digit, or another byte.
pub fn short_number(digits: &[u8]) -> Option<u64>
    requires few { length digits.now ≤ 18 }
    ensures { result ≡ number_of digits.now }
{
    if digits.is_empty() {
        return None;
    }
    let mut number = 0u64;
    for byte in digits {
        if !byte.is_ascii_digit() {
            return None;
        }
        number = number * 10 + u64::from(byte - b'0');
    }
    Some(number)
}

/// The amount that a field writes: one ASCII digit or more, behind a `-`, a `+` or no sign, from -2^63 to 2^63 - 1.
pub fn amount(field: &[u8]) -> Option<i64>
    ensures { result ≡ amount_of field.now }
{
    let (is_negative, digits) = behind_sign(field);
    if digits.len() > FEW {
        return long_amount(field);
    }
    let Some(number) = short_number(digits) else {
        return None;
    };
    let number = number as i64;
    Some(if is_negative { -number } else { number })
}
