// What a run returns, and what refuses it.
#![tactic(auto)]

pub mod refusal;

ghost use Rattle.std.specs.Prelude.{◌≡◌};
ghost use Rattle.outcome.specs.Outcomes.{count_of, number_of};
ghost use Rattle.outcome.specs.Inner.Finished.{finished};

use crate::refusal::Refusal;

// The list is whole, with its length; or a report was due and the rows were full, with their number; or the run was refused.
#[derive(Clone, Copy)]
pub enum Outcome {
    Done(usize),
    Full(usize),
    Refused(Refusal),
}

// The outcome of a run that was let through.
pub fn finish(full: bool, count: usize) -> Outcome
    ensures { result ≡ finished full count }
{
    if full {
        return Outcome::Full(count);
    }
    Outcome::Done(count)
}

impl Outcome {
    // The table's number.
    pub fn number(self) -> u32
        ensures { result ≡ number_of self }
    {
        match self {
            Outcome::Done(_) => 0,
            Outcome::Full(_) => 12,
            Outcome::Refused(refusal) => refusal.number(),
        }
    }

    // How many rows it has.
    pub fn count(self) -> usize
        ensures { result ≡ count_of self }
    {
        match self {
            Outcome::Done(rows) | Outcome::Full(rows) => rows,
            Outcome::Refused(_) => 0,
        }
    }
}
