//! Names of one letter, so that keys of constant rows are bytes.
use fkv_functions::Name;
use fkv_operations::KeyedOp;

/// The name of one letter.
pub fn name(letter: u8) -> Option<Name> {
    Name::new(&[letter])
}

/// The letter of a name of one, or 0.
pub fn letter(name: &Name) -> u8 {
    match name.bytes() {
        [letter] => *letter,
        _ => 0,
    }
}

/// The operation on a name.
pub fn on_name<V, I>(op: KeyedOp<u8, V, I>) -> Option<KeyedOp<Name, V, I>>
where
    V: Copy,
    I: Copy,
{
    let key = name(op.key())?;
    Some(match op {
        KeyedOp::Read(_, input) => KeyedOp::Read(key, input),
        KeyedOp::Upsert(_, value) => KeyedOp::Upsert(key, value),
        KeyedOp::Rmw(_, input) => KeyedOp::Rmw(key, input),
        KeyedOp::Delete(_) => KeyedOp::Delete(key),
        KeyedOp::Merge(_, input) => KeyedOp::Merge(key, input),
    })
}

/// Whether these are the pairs of a map, in its order.
pub fn is_map(pairs: &[(Name, i128)], wanted: &[(u8, i128)]) -> bool {
    pairs.len() == wanted.len()
        && pairs
            .iter()
            .zip(wanted.iter())
            .all(|(pair, it)| letter(&pair.0) == it.0 && pair.1 == it.1)
}
