// The parts of a file, read field by field with their checks in order.
ghost use Rattle.std.specs.Prelude.{◌≡◌, ℕ, ◌+◌, ◌*◌, ◌<◌, ◌≤◌, ◌++◌, length};
ghost use Rattle.graph.specs.Rules.{goes, named, repeated, timed, ended, limited, headed};
ghost use Rattle.graph.specs.Answers.{HeadIs, ActorValueIs, ChannelValueIs, ActorIs, ChannelIs, ActorsIs, ChannelsIs, NoMoreIs, PartsIs, kept};

use crate::actor::{Actor, NameRow};
use crate::channel::Channel;
use crate::fault::Fault;
use crate::head::Head;
use fields::{Field, Kind};
use table::Table;

// What a file states: the first `n` actors and the first `m` channels.
// Arrays with a count beside each, as a graph keeps them.
#[derive(Clone, Copy)]
pub struct Parts {
    pub actors: [Actor; 16],
    pub n: usize,
    pub channels: [Channel; 32],
    pub m: usize,
}

const NO_ACTOR: Actor = Actor {
    name: [0; 8],
    time: 0,
};

const NO_NAME: NameRow = NameRow {
    name: [0; 8],
    field: 0,
};

const NO_CHANNEL: Channel = Channel {
    source: 0,
    dest: 0,
    p: 0,
    q: 0,
    capacity: 0,
    tokens: 0,
};

// Whether the head's counts are within their limits.
fn is_head(actors: u8, channels: u8) -> bool
    ensures { result ≡ headed actors channels }
{
    (1..=16).contains(&actors) && channels <= 32
}

// Whether a byte may come next in a name; `over` says that a zero has been.
fn may_follow(over: bool, b: u8) -> bool
    ensures { result ≡ goes over b }
{
    b == 0 || (!over && b.is_ascii_graphic())
}

// Whether a name has 1 to 8 bytes of 33 to 126, and zeros after them.
fn is_named(name: &[u8; 8]) -> bool
    ensures { result ≡ named name.now }
{
    let mut over = false;
    for b in name {
        if !may_follow(over, *b) {
            return false;
        }
        over = *b == 0;
    }
    name[0] != 0
}

// Whether the table has that name.
fn is_repeated(seen: &Table<'_, NameRow>, name: [u8; 8]) -> bool
    ensures { result ≡ repeated (kept seen.now.rows.now seen.now.used) name }
{
    seen.find(&NameRow { name, field: 0 }).is_some()
}

// Whether a time is within its limits.
fn is_time(time: u16) -> bool
    ensures { result ≡ timed time }
{
    (1..=4095).contains(&time)
}

// The actor that a value states.
impl From<&[u8; 10]> for Actor {
    ghost from_gives = { λ value actor. ActorValueIs value.now actor };

    fn from(value: &[u8; 10]) -> Actor {
        let mut name = [0; 8];
        name.copy_from_slice(&value[..8]);
        let [.., high, low] = *value;
        Actor {
            name,
            time: u16::from_be_bytes([high, low]),
        }
    }
}

// Reads one more actor, the field of that number, and gives the bytes after it.
fn actor<'a>(
    seen: &Table<'_, NameRow>,
    bytes: &'a [u8],
    number: u8,
) -> Result<(Actor, &'a [u8]), Fault>
    ensures { ActorIs number (kept seen.now.rows.now seen.now.used) bytes.now result }
{
    let (field, rest) = fields::read(bytes, Kind::Actor, number)?;
    let Field::Actor(value) = field else {
        unreachable!()
    };
    let actor = Actor::from(value);
    if !is_named(&actor.name) {
        return Err(Fault::Name(number));
    }
    if is_repeated(seen, actor.name) {
        return Err(Fault::Repeated(number));
    }
    if !is_time(actor.time) {
        return Err(Fault::Time(number));
    }
    Ok((actor, rest))
}

// Whether both ends of a channel are actors.
fn is_ended(actors: u8, channel: Channel) -> bool
    ensures { result ≡ ended actors channel }
{
    channel.source < actors && channel.dest < actors
}

// Whether rates, capacity and tokens are within their limits.
fn is_limited(channel: Channel) -> bool
    ensures { result ≡ limited channel }
{
    let Channel {
        p,
        q,
        capacity,
        tokens,
        ..
    } = channel;
    p >= 1 && q >= 1 && (1..=4096).contains(&capacity) && tokens <= capacity
}

// The channel that a value states.
impl From<&[u8; 8]> for Channel {
    ghost from_gives = { λ value channel. ChannelValueIs value.now channel };

    fn from(value: &[u8; 8]) -> Channel {
        let [source, dest, p, q, c1, c0, t1, t0] = *value;
        Channel {
            source,
            dest,
            p,
            q,
            capacity: u16::from_be_bytes([c1, c0]),
            tokens: u16::from_be_bytes([t1, t0]),
        }
    }
}

// Reads one more channel, the field of that number, and gives the bytes after it.
fn channel<'a>(actors: u8, bytes: &'a [u8], number: u8) -> Result<(Channel, &'a [u8]), Fault>
    ensures { ChannelIs actors number bytes.now result }
{
    let (field, rest) = fields::read(bytes, Kind::Channel, number)?;
    let Field::Channel(value) = field else {
        unreachable!()
    };
    let channel = Channel::from(value);
    if !is_ended(actors, channel) {
        return Err(Fault::End(number));
    }
    if !is_limited(channel) {
        return Err(Fault::Limit(number));
    }
    Ok((channel, rest))
}

impl Head {
    // Reads the head, and gives the bytes after it.
    fn read<'a>(bytes: &'a [u8]) -> Result<(Head, &'a [u8]), Fault>
        ensures { HeadIs bytes.now result }
    {
        let (field, rest) = fields::read(bytes, Kind::Head, 0)?;
        let Field::Head(&[actors, channels]) = field else {
            unreachable!()
        };
        if !is_head(actors, channels) {
            return Err(Fault::Head(0));
        }
        Ok((Head { actors, channels }, rest))
    }

    // Reads as many actors, one after another, and gives the bytes after them.
    fn read_actors<'a>(self, bytes: &'a [u8]) -> Result<([Actor; 16], &'a [u8]), Fault>
        ensures { ActorsIs bytes.now self.actors result }
    {
        let mut list = [NO_ACTOR; 16];
        let mut rows = [NO_NAME; 16];
        let mut seen = Table::over(&mut rows);
        let mut rest = bytes;
        for (i, place) in list[..self.actors as usize].iter_mut().enumerate() {
            let number = 1 + i as u8;
            (*place, rest) = actor(&seen, rest, number)?;
            let name = place.name;
            // there is a row for each of the 16
            let _ = seen.add(NameRow {
                name,
                field: number,
            });
        }
        Ok((list, rest))
    }

    // Reads as many channels, one after another, and gives the bytes after them.
    fn read_channels<'a>(self, bytes: &'a [u8]) -> Result<([Channel; 32], &'a [u8]), Fault>
        ensures { ChannelsIs self.actors bytes.now self.channels result }
    {
        let mut list = [NO_CHANNEL; 32];
        let mut rest = bytes;
        for (i, place) in list[..self.channels as usize].iter_mut().enumerate() {
            (*place, rest) = channel(self.actors, rest, 1 + self.actors + i as u8)?;
        }
        Ok((list, rest))
    }

    // Refuses bytes after the last of the fields.
    fn end(self, bytes: &[u8]) -> Result<(), Fault>
        ensures { NoMoreIs bytes.now self.actors self.channels result }
    {
        fields::end(bytes, 1 + self.actors + self.channels)?;
        Ok(())
    }
}

// Reads head, actors, channels and the end.
pub fn read_parts(bytes: &[u8]) -> Result<Parts, Fault>
    ensures { PartsIs bytes.now result }
{
    let (head, rest) = Head::read(bytes)?;
    let (actors, rest) = head.read_actors(rest)?;
    let (channels, rest) = head.read_channels(rest)?;
    head.end(rest)?;
    Ok(Parts {
        actors,
        n: head.actors as usize,
        channels,
        m: head.channels as usize,
    })
}
