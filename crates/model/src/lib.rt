#![tactic(auto)]

ghost use Rattle.std.specs.Prelude.{◌≡◌, [], ◌∷◌};
ghost use Rattle.model.specs.Examples.{answer_of, chain, WorkedRuns};
ghost use Rattle.model.specs.Laws.{Law, RunFits, Pace};
ghost use Rattle.model.specs.Meaning.{RateHolds};
ghost use Rattle.model.specs.Rate.{repeats};
ghost use Rattle.model.specs.Schedule.{InOrder, NoFaster};

// f, d and m of a graph worked on paper; the contract carries the laws of every graph.
pub fn laws_stand() -> (u32, u32, u32)
    ensures value { answer_of (chain 2 3 4) (1 ∷ 2 ∷ []) 3 ≡ repeats result.0 result.1 result.2 }
    ensures law { Law }
    ensures fits { RunFits }
    ensures order { InOrder }
    ensures schedules { NoFaster }
    ensures pace { Pace }
    ensures rates { RateHolds }
    ensures worked { WorkedRuns }
{
    (5, 7, 1)
}
