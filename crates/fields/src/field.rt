ghost use Rattle.std.specs.Prelude.{◌≡◌};
ghost use Rattle.fields.specs.Field.{tag_of, size_of, kind_of};

// What a field describes.
#[derive(Clone, Copy, PartialEq, Eq, Debug)]
pub enum Kind {
    Head,
    Actor,
    Channel,
}

// A field by its value, which lies in the file.
#[derive(Clone, Copy, PartialEq, Eq, Debug)]
pub enum Field<'a> {
    // actor count, channel count
    Head(&'a [u8; 2]),
    // name in eight bytes, time in two
    Actor(&'a [u8; 10]),
    // source, destination, out-rate, in-rate; capacity and tokens in two bytes each
    Channel(&'a [u8; 8]),
}

impl Kind {
    // The tag byte of the kind.
    pub fn tag(self) -> u8
        ensures { result ≡ tag_of self }
    {
        match self {
            Kind::Head => 1,
            Kind::Actor => 2,
            Kind::Channel => 3,
        }
    }

    // The length of a value of the kind.
    pub fn size(self) -> usize
        ensures { result ≡ size_of self }
    {
        match self {
            Kind::Head => 2,
            Kind::Actor => 10,
            Kind::Channel => 8,
        }
    }
}

impl<'a> Field<'a> {
    // The kind of the field.
    pub fn kind(self) -> Kind
        ensures { result ≡ kind_of self.entry }
    {
        match self {
            Field::Head(_) => Kind::Head,
            Field::Actor(_) => Kind::Actor,
            Field::Channel(_) => Kind::Channel,
        }
    }
}
