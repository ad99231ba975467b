// Writing a graph's file into a caller's buffer.
ghost use Rattle.std.specs.Prelude.{◌≡◌, ℕ, List, ◌++◌};
ghost use Rattle.std.specs.List.{flat_map};
ghost use Rattle.fields.specs.Writing.{PutIs};
ghost use Rattle.graph.specs.File.{actor_value, actor_bytes, channel_value, channel_bytes};
ghost use Rattle.graph.specs.Meaning.{writing, WriteIs, ReadsBack, PutAllIs};

use crate::actor::Actor;
use crate::channel::Channel;
use crate::fault::Fault;
use crate::graph::Graph;
use fields::{Field, Writer};

// A part of the file that is written as one field.
trait Part {
    ghost bytes: { Self → List ℕ };

    // Writes it at the writer's place.
    fn put(&self, writer: &mut Writer<'_>) -> Result<(), fields::Fault>
        ensures done { PutIs (bytes self.now) writer.old writer.new result }
        ensures lender { writer.new.buffer.ghost_name ≡ writer.old.buffer.ghost_name };
}

// The value of an actor's field.
impl From<&Actor> for [u8; 10] {
    ghost from_gives = { λ actor value. value ≡ actor_value actor.now };

    fn from(actor: &Actor) -> [u8; 10] {
        let Actor { name, time } = *actor;
        let mut value = [0; 10];
        value[..8].copy_from_slice(&name);
        value[8..].copy_from_slice(&time.to_be_bytes());
        value
    }
}

// The value of a channel's field.
impl From<&Channel> for [u8; 8] {
    ghost from_gives = { λ channel value. value ≡ channel_value channel.now };

    fn from(channel: &Channel) -> [u8; 8] {
        let Channel {
            source,
            dest,
            p,
            q,
            capacity,
            tokens,
        } = *channel;
        let [capacity_high, capacity_low] = capacity.to_be_bytes();
        let [tokens_high, tokens_low] = tokens.to_be_bytes();
        [
            source,
            dest,
            p,
            q,
            capacity_high,
            capacity_low,
            tokens_high,
            tokens_low,
        ]
    }
}

impl Part for Actor {
    ghost bytes = { actor_bytes };

    fn put(&self, writer: &mut Writer<'_>) -> Result<(), fields::Fault> {
        Field::Actor(&self.into()).write(writer)
    }
}

impl Part for Channel {
    ghost bytes = { channel_bytes };

    fn put(&self, writer: &mut Writer<'_>) -> Result<(), fields::Fault> {
        Field::Channel(&self.into()).write(writer)
    }
}

// Writes parts one after another.
fn put_all<P: Part>(parts: &[P], writer: &mut Writer<'_>) -> Result<(), fields::Fault>
    ensures done { PutAllIs (flat_map P.Part.bytes parts.now) writer.old writer.new result }
    ensures lender { writer.new.buffer.ghost_name ≡ writer.old.buffer.ghost_name }
{
    for part in parts {
        part.put(writer)?;
    }
    Ok(())
}

impl Graph {
    // Writes the file of the graph to the front of the buffer, and answers its length.
    #[tactic(auto, using(crate::proofs::Graphs::reads_back))]
    pub fn write(&self, out: &mut [u8]) -> Result<usize, Fault>
        ensures done { WriteIs (writing self.now) out.old out.new result }
        ensures back { ReadsBack self.now }
    {
        let size = 5 + 13 * self.n + 11 * self.m;
        if out.len() < size {
            return Err(fields::Fault::Small.into());
        }
        let mut writer = Writer::new(out, 0);
        Field::Head(&[self.n as u8, self.m as u8]).write(&mut writer)?;
        put_all(self.actors(), &mut writer)?;
        put_all(self.channels(), &mut writer)?;
        Ok(writer.place())
    }
}
