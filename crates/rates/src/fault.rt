ghost use Rattle.std.specs.Prelude.{◌≡◌};
ghost use Rattle.rates.specs.Faults.{layer_of, number_of, place_of};

// Why a bench or rate has no answer to give.
#[derive(Clone, Copy, PartialEq, Eq, Debug)]
pub enum Fault {
    // Works differ from times, or in number, with the lowest actor concerned.
    Works(u8),
    // A sample has no row.
    NoRow,
    // The last tick is done.
    LastTick,
    // No such actor or channel.
    Absent,
}

impl Fault {
    // The layer that finds these faults.
    pub fn layer(self) -> &'static str
        ensures { result.now ≡ layer_of self }
    {
        "bench"
    }

    // The number that is printed of the refusal.
    pub fn number(self) -> u8
        ensures { result ≡ number_of self }
    {
        match self {
            Fault::Works(_) => 16,
            Fault::NoRow => 17,
            Fault::LastTick => 18,
            Fault::Absent => 19,
        }
    }

    // The actor that is printed of the refusal, or 0.
    pub fn place(self) -> u8
        ensures { result ≡ place_of self }
    {
        match self {
            Fault::Works(actor) => actor,
            Fault::NoRow | Fault::LastTick | Fault::Absent => 0,
        }
    }
}
