ghost use Rattle.std.specs.Prelude.{◌≡◌, codes};
ghost use Rattle.policy.specs.Faults.{layer_of, number_of, place_of};

// Why a policy is not made as asked, with the lowest actor concerned, or 0.
#[derive(Clone, Copy, PartialEq, Eq, Debug)]
pub enum Fault {
    // A pair of more than 16 actors.
    Crowd,
    // Works, a period or slots outside their limits.
    Limits(u8),
    // A slice's promise over 65,535.
    Promise(u8),
}

impl Fault {
    // The layer that finds these faults.
    pub fn layer(self) -> &'static str
        ensures { result.now ≡ layer_of self }
    {
        "policy"
    }

    // The number of the refusal.
    pub fn number(self) -> u8
        ensures { result ≡ number_of self }
    {
        match self {
            Fault::Crowd => 13,
            Fault::Limits(_) => 14,
            Fault::Promise(_) => 15,
        }
    }

    // The actor concerned, or 0.
    pub fn place(self) -> u8
        ensures { result ≡ place_of self }
    {
        match self {
            Fault::Crowd => 0,
            Fault::Limits(actor) | Fault::Promise(actor) => actor,
        }
    }
}
