// Why a file, a request, contents or a search is refused.
ghost use Rattle.std.specs.Prelude.{◌≡◌};
ghost use Rattle.outcome.specs.Inner.Lower.{lower};
ghost use Rattle.outcome.specs.Refusals.{number_of, refusal_number};

// A variant for each number of the table but 12, which is no refusal before a run; then the writer's and the finder's.
#[derive(Clone, Copy, PartialEq, Eq)]
pub enum Refusal {
    Header,
    Average,
    Length,
    Entry,
    Skips,
    Postings,
    Documents,
    Frequencies,
    Bound,
    Query,
    Rule,
    Output,
    Notes,
}

impl Refusal {
    // The table's number.
    pub fn number(self) -> u32
        ensures { result ≡ number_of self }
    {
        match self {
            Refusal::Header => 1,
            Refusal::Average => 2,
            Refusal::Length => 3,
            Refusal::Entry => 4,
            Refusal::Skips => 5,
            Refusal::Postings => 6,
            Refusal::Documents => 7,
            Refusal::Frequencies => 8,
            Refusal::Bound => 9,
            Refusal::Query => 10,
            Refusal::Rule => 11,
            Refusal::Output => 13,
            Refusal::Notes => 14,
        }
    }
}

// The number of a test's answer: 0 where nothing is refused.
pub fn refusal_number(answer: Result<(), Refusal>) -> u32
    ensures { result ≡ refusal_number answer }
{
    match answer {
        Ok(()) => 0,
        Err(refusal) => refusal.number(),
    }
}

// Of two answers the refusal with the lower number.
pub fn lower_of(a: Result<(), Refusal>, b: Result<(), Refusal>) -> Result<(), Refusal>
    ensures { refusal_number result ≡ lower (refusal_number a) (refusal_number b) }
{
    match (a, b) {
        (Err(x), Err(y)) if y.number() < x.number() => b,
        (Err(_), _) => a,
        (Ok(()), _) => b,
    }
}
