// A run's rows: two lent buffers. A report goes to the next row and moves the threshold.
#![tactic(auto)]

ghost use Rattle.std.specs.Prelude.{◌≡◌, ◌<◌, length};
ghost use Rattle.rule.specs.Inner.Follows.{Keeps};
ghost use Rattle.reports.specs.Rows.{rows_of};
ghost use Rattle.reports.specs.Inner.Rows.{Reported};

use rule::{Rule, Threshold};

// Why a run that goes on by turns stands still: a report is due, its document and its score; the route is over; or its turns are taken.
#[derive(Clone, Copy)]
pub enum Event {
    Report(u32, f32),
    Over,
    Paused,
}

// What one turn of a run of state S leaves: the state that it came to, and the document and the score of the report that is due, if one is.
#[derive(Clone, Copy)]
pub struct Step<S> {
    pub to: S,
    pub due: Option<(u32, f32)>,
}

// Where a run of state S came to, how many turns it took, and why it stands still.
#[derive(Clone, Copy)]
pub struct Gone<S> {
    pub to: S,
    pub taken: usize,
    pub event: Event,
}

impl<S> Gone<S> {
    pub fn new(to: S, taken: usize, event: Event) -> Self
        ensures { result ≡ record { to = to; taken = taken; event = event } }
    {
        Gone { to, taken, event }
    }

    // The same of the state that `f` makes of this one.
    pub fn map<T, F: FnOnce(S) -> T>(self, f: F) -> Gone<T>
        requires { F.pre f self.to }
        ensures to { F.post f self.to result.to }
        ensures taken { result.taken ≡ self.taken }
        ensures event { result.event ≡ self.event }
    {
        Gone {
            to: f(self.to),
            taken: self.taken,
            event: self.event,
        }
    }
}

// How many rows there are: as many as the shorter buffer has.
pub fn rows(documents: &[u32], scores: &[f32]) -> usize
    ensures { result ≡ rows_of documents.now scores.now }
{
    documents.len().min(scores.len())
}

// The next row is written, and the rule is told the score.
pub fn report(
    rule: Rule,
    script: &[f32],
    t: Threshold,
    doc: u32,
    score: f32,
    best: &mut [f32; 64],
    documents: &mut [u32],
    scores: &mut [f32],
) -> Threshold
    requires { Keeps rule × (t.reports < length documents.old) × (t.reports < length scores.old) }
    ensures { Reported rule script.now doc score t best.old documents.old scores.old
        result best.new documents.new scores.new }
{
    let row = t.reports;
    documents[row] = doc;
    scores[row] = score;
    t.after(rule, script, score, best)
}
