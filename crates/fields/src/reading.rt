ghost use Rattle.std.specs.Prelude.{◌≡◌, ℕ, ◌+◌, ◌*◌, ◌<◌, ◌≤◌, length};
ghost use Rattle.fields.specs.Field.{ReadIs, EndIs, ValueIs};

use crate::fault::Fault;
use crate::field::{Field, Kind};

// The value of that kind at the front of the bytes, and the bytes after it. Each arm has a type of its own, the array
// that its case of a field borrows.
fn value<'a>(kind: Kind, bytes: &'a [u8]) -> Option<(Field<'a>, &'a [u8])>
    ensures { ValueIs kind bytes.now result }
{
    match kind {
        Kind::Head => bytes
            .split_first_chunk()
            .map(|(value, rest)| (Field::Head(value), rest)),
        Kind::Actor => bytes
            .split_first_chunk()
            .map(|(value, rest)| (Field::Actor(value), rest)),
        Kind::Channel => bytes
            .split_first_chunk()
            .map(|(value, rest)| (Field::Channel(value), rest)),
    }
}

// Reads the field of the kind that is due, the one of that number, and gives it with the bytes after it. Bytes and
// number stay apart: a reader that counts its fields would ask of callers that one more number fits a byte.
pub fn read<'a>(bytes: &'a [u8], kind: Kind, number: u8) -> Result<(Field<'a>, &'a [u8]), Fault>
    ensures { ReadIs bytes.now kind number result }
{
    let [tag, high, low, rest @ ..] = bytes else {
        return Err(Fault::Ends(number));
    };
    if *tag != kind.tag() {
        return Err(Fault::Tag(number));
    }
    if usize::from(u16::from_be_bytes([*high, *low])) != kind.size() {
        return Err(Fault::Length(number));
    }
    value(kind, rest).ok_or(Fault::Ends(number))
}

// Refuses bytes that stand where the file should end, before a field of that number.
pub fn end(bytes: &[u8], number: u8) -> Result<(), Fault>
    ensures { EndIs bytes.now number result }
{
    if !bytes.is_empty() {
        return Err(Fault::More(number));
    }
    Ok(())
}
