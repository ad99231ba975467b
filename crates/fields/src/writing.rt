ghost use Rattle.std.specs.Prelude.{◌≡◌, ℕ, ◌+◌, ◌-◌, ◌<◌, ◌≤◌, [], ◌++◌, length};
ghost use Rattle.fields.specs.Field.{size_of, kind_of, bytes_of, framed, written};
ghost use Rattle.fields.specs.Writing.{Puts, PutIs};

use crate::fault::Fault;
use crate::field::{Field, Kind};

// A buffer that fields are written into, and the place where the next one goes, which may be past the buffer's end.
#[derive(Drop)]
pub struct Writer<'a> {
    buffer: &'a mut [u8],
    at: usize,
}

impl<'a> Writer<'a> {
    // A writer that begins at that place of the buffer.
    pub fn new(buffer: &'a mut [u8], at: usize) -> Writer<'a>
        ensures place { result.at ≡ at }
        ensures kept { result.buffer.now ≡ buffer.old }
        ensures lender { result.buffer.ghost_name ≡ buffer.entry.ghost_name }
    {
        Writer { buffer, at }
    }

    // The place where the next field goes.
    pub fn place(&self) -> usize
        ensures { result ≡ self.now.at }
    {
        self.at
    }

    // How many bytes there are from the place to the end of the buffer.
    fn room(&self) -> usize
        ensures { result ≡ length self.now.buffer.now - self.now.at }
    {
        self.buffer.len().saturating_sub(self.at)
    }

    // Puts bytes that fit at the place, and goes on after them.
    fn put(&mut self, bytes: &[u8])
        requires { self.old.at + length bytes.now ≤ length self.old.buffer.now }
        ensures done { Puts bytes.now self.old self.new }
        ensures lender { self.new.buffer.ghost_name ≡ self.old.buffer.ghost_name }
    {
        let next = self.at + bytes.len();
        self.buffer[self.at..next].copy_from_slice(bytes);
        self.at = next;
    }
}

// The bytes before a value: the tag, and the length with its high byte first.
fn frame(kind: Kind) -> [u8; 3]
    ensures { result ≡ framed kind [] }
{
    let [high, low] = (kind.size() as u16).to_be_bytes();
    [kind.tag(), high, low]
}

impl<'a> Field<'a> {
    // The bytes of the value, whatever the kind.
    pub fn bytes(self) -> &'a [u8]
        ensures value { result.now ≡ bytes_of self.entry }
        ensures size { length result.now ≡ size_of (kind_of self.entry) }
    {
        match self {
            Field::Head(value) => value,
            Field::Actor(value) => value,
            Field::Channel(value) => value,
        }
    }

    // Writes the field, or refuses where it does not fit.
    pub fn write(self, writer: &mut Writer<'_>) -> Result<(), Fault>
        ensures done { PutIs (written self.entry) writer.old writer.new result }
        ensures lender { writer.new.buffer.ghost_name ≡ writer.old.buffer.ghost_name }
    {
        let value = self.bytes();
        if writer.room() < 3 + value.len() {
            return Err(Fault::Small);
        }
        writer.put(&frame(self.kind()));
        writer.put(value);
        Ok(())
    }
}
