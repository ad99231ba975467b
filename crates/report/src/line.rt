ghost use Rattle.std.specs.Prelude.{◌≡◌, length, Some};
ghost use Rattle.report.specs.Lines.{rate_in, held_in, RatesAre, ReportIs, printed, rates_text, shown_of};

use crate::fault::Fault;
use crate::pile::pile;
use bench::{Rate, Sample, follow, unhindered_rate};
use graph::Graph;
use std::fmt;

// How many rows a run has for its samples.
pub const ROWS: usize = 256;

// What rate told of a run.
#[derive(Clone, Copy, PartialEq, Eq, Debug)]
pub struct Told {
    pub answer: Result<Rate, Fault>,
}

// The rates of a graph.
#[derive(Clone, Copy, PartialEq, Eq, Debug)]
pub struct Rates {
    // of the unhindered run
    pub rate: Told,
    // of the run that a shared card promises
    pub held: Told,
}

// What a file comes to: the rates of its graph, or why it is refused.
#[derive(Clone, Copy, PartialEq, Eq, Debug)]
pub struct Report {
    pub answer: Result<Rates, Fault>,
}

// Rows to lend.
fn rows() -> [Sample; ROWS]
    ensures { length result ≡ 256 }
{
    [Sample::BLANK; ROWS]
}

// The rates of a graph: unhindered, and as its actors are promised on a shared card.
fn rated(graph: &Graph) -> Rates
    ensures rate { result.rate.answer ≡ rate_in graph.now }
    ensures held { result.held.answer ≡ held_in graph.now }
{
    // One table for both ways: a temporary in each would have a place of its own on the stack.
    let mut rate_rows = rows();
    let (rate, held) = match pile(graph) {
        Ok(pile) => {
            let mut held_rows = rows();
            let both = follow(graph, pile, &[], &mut [], &mut rate_rows, &mut held_rows);
            (both.unhindered, both.promised.map_err(Fault::from))
        }
        Err(fault) => (unhindered_rate(graph, &mut rate_rows), Err(fault)),
    };
    Rates {
        rate: Told {
            answer: rate.map_err(Fault::from),
        },
        held: Told { answer: held },
    }
}

// The rates of the graph that the bytes are the file of.
fn rates_of(bytes: &[u8]) -> Result<Rates, Fault>
    ensures { RatesAre bytes.now result }
{
    let graph = Graph::read(bytes)?;
    Ok(rated(&graph))
}

impl Report {
    // The report on a file.
    pub fn of(bytes: &[u8]) -> Report
        ensures { ReportIs bytes.now result }
    {
        Report {
            answer: rates_of(bytes),
        }
    }
}

impl fmt::Display for Told {
    ghost output = { λ t. Some (printed t.answer) };

    fn fmt<W: fmt::Write>(&self, f: &mut fmt::Formatter<W>) -> fmt::Result {
        match self.answer {
            Ok(Rate::Repeats { f: from, d, m }) => write!(f, "{from} {d} {m}"),
            Ok(Rate::Standstill { f: from }) => write!(f, "stop {from}"),
            Err(fault) => write!(f, "none {}", fault.number()),
        }
    }
}

impl fmt::Display for Rates {
    ghost output = { λ r. Some (rates_text r) };

    fn fmt<W: fmt::Write>(&self, f: &mut fmt::Formatter<W>) -> fmt::Result {
        let Rates { rate, held } = self;
        write!(f, "RATE {rate}\nHELD {held}")
    }
}

impl fmt::Display for Report {
    ghost output = { λ r. Some (shown_of r) };

    fn fmt<W: fmt::Write>(&self, f: &mut fmt::Formatter<W>) -> fmt::Result {
        match &self.answer {
            Ok(rates) => write!(f, "{rates}"),
            Err(fault) => write!(f, "FAULT {fault}"),
        }
    }
}
