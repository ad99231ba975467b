ghost use Rattle.std.specs.Prelude.{◌≡◌, Some};
ghost use Rattle.report.specs.declared.fault.Fault.TheVariants.{Graph, Policy, Bench};
ghost use Rattle.report.specs.Faults.{layer_of, number_of, place_of, fault_text};

use std::fmt;

// Why a file is refused, or a rate is not told: a fault of the layer that found it, whole.
#[derive(Clone, Copy, PartialEq, Eq, Debug)]
pub enum Fault {
    Graph(graph::Fault),
    Policy(policy::Fault),
    Bench(bench::Fault),
}

// By hand, as the next two: a derived From would not say which fault it makes.
impl From<graph::Fault> for Fault {
    ghost from_gives = { λ e r. r ≡ Graph e };

    fn from(e: graph::Fault) -> Fault {
        Fault::Graph(e)
    }
}

impl From<policy::Fault> for Fault {
    ghost from_gives = { λ e r. r ≡ Policy e };

    fn from(e: policy::Fault) -> Fault {
        Fault::Policy(e)
    }
}

impl From<bench::Fault> for Fault {
    ghost from_gives = { λ e r. r ≡ Bench e };

    fn from(e: bench::Fault) -> Fault {
        Fault::Bench(e)
    }
}

impl Fault {
    // Layer, number and place, as the layer that found the fault says them.
    fn said(self) -> (&'static str, u8, u8)
        ensures layer { result.0.now ≡ layer_of self }
        ensures number { result.1 ≡ number_of self }
        ensures place { result.2 ≡ place_of self }
    {
        match self {
            Fault::Graph(e) => (e.layer(), e.number(), e.place()),
            Fault::Policy(e) => (e.layer(), e.number(), e.place()),
            Fault::Bench(e) => (e.layer(), e.number(), e.place()),
        }
    }

    // The layer that found the fault.
    pub fn layer(self) -> &'static str
        ensures { result.now ≡ layer_of self }
    {
        self.said().0
    }

    // The number of the refusal.
    pub fn number(self) -> u8
        ensures { result ≡ number_of self }
    {
        self.said().1
    }

    // The field or the actor concerned, or 0.
    pub fn place(self) -> u8
        ensures { result ≡ place_of self }
    {
        self.said().2
    }
}

impl fmt::Display for Fault {
    ghost output = { λ e. Some (fault_text e) };

    fn fmt<W: fmt::Write>(&self, f: &mut fmt::Formatter<W>) -> fmt::Result {
        let (layer, number, place) = self.said();
        write!(f, "{layer} {number} {place}")
    }
}
