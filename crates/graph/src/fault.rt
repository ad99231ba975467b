ghost use Rattle.std.specs.Prelude.{◌≡◌};
ghost use Rattle.graph.specs.declared.fault.Fault.TheVariants.{Fields};
ghost use Rattle.graph.specs.Faults.{layer_of, number_of, place_of};

// Why bytes are no graph, or a graph is not written.
#[derive(Clone, Copy, PartialEq, Eq, Debug)]
pub enum Fault {
    // A fault of the layer below, whole.
    Fields(fields::Fault),
    // A count of the head outside its limits, with the field's number, as in the next five.
    Head(u8),
    // A name that is ill-formed.
    Name(u8),
    // A name that an earlier actor has.
    Repeated(u8),
    // A time outside its limits.
    Time(u8),
    // An end of a channel that is no actor.
    End(u8),
    // A rate, a capacity or tokens outside their limits.
    Limit(u8),
    // An actor that channels do not join to actor 0, the lowest.
    Apart(u8),
    // No repetition counts up to 4096.
    Unbalanced,
}

// By hand: a derived From would not say which fault it makes.
impl From<fields::Fault> for Fault {
    ghost from_gives = { λ e r. r ≡ Fields e };

    fn from(e: fields::Fault) -> Fault {
        Fault::Fields(e)
    }
}

impl Fault {
    // The layer that found the fault.
    pub fn layer(self) -> &'static str
        ensures { result.now ≡ layer_of self }
    {
        match self {
            Fault::Fields(e) => e.layer(),
            _ => "graph",
        }
    }

    // The number of the refusal.
    pub fn number(self) -> u8
        ensures { result ≡ number_of self }
    {
        match self {
            Fault::Fields(e) => e.number(),
            Fault::Head(_) => 5,
            Fault::Name(_) => 6,
            Fault::Repeated(_) => 7,
            Fault::Time(_) => 8,
            Fault::End(_) => 9,
            Fault::Limit(_) => 10,
            Fault::Apart(_) => 11,
            Fault::Unbalanced => 12,
        }
    }

    // The field or the actor concerned, or 0.
    pub fn place(self) -> u8
        ensures { result ≡ place_of self }
    {
        match self {
            Fault::Fields(e) => e.place(),
            Fault::Head(field)
            | Fault::Name(field)
            | Fault::Repeated(field)
            | Fault::Time(field)
            | Fault::End(field)
            | Fault::Limit(field) => field,
            Fault::Apart(actor) => actor,
            Fault::Unbalanced => 0,
        }
    }
}
