// The note finder: the k best notes of a query, by falling score, then rising document.
//
// It stands on what `ranking` says, and on nothing of how a run goes, as its imports show. Of `ranking` the code takes `run` alone; beside
// it stands `check_request`, whose contract is the table. Of a run the proofs take `RunIs`, the contract of `run`, and laws that follow
// from it (the modules Demand and Counts of `ranking`). The other modules that they name hold the definitions in that contract and laws of
// those: requests and refusals, rows, outcomes, the plain scan's matches. No crate in which a run is made, between `request` and `ranking`,
// is in this crate's line of crates.txt.
#![tactic(auto)]

ghost use Rattle.std.specs.Prelude.{◌≤◌};
ghost use Rattle.reports.specs.Rows.{rows_of};
ghost use Rattle.reports.specs.Rows as lent;
ghost use Rattle.note_finder.specs.Found.{FindIs, sought};

use best_notes::gather;
use bm25::Scoring;
use outcome::Outcome;
use outcome::refusal::Refusal;
use ranking::skipping::run;
use reports::rows;
use request::{Mode, check_request};
use rule::Rule;

// The run and its notes, where k note rows are lent.
fn best_of_run(
    file: &[u8],
    query: &[u32],
    mode: Mode,
    scoring: Scoring,
    start: f32,
    k: u32,
    reported: &mut [u32],
    values: &mut [f32],
    documents: &mut [u32],
    scores: &mut [f32],
) -> Outcome
    requires { k ≤ rows_of documents.old scores.old }
    ensures { FindIs (sought file.now query.now mode scoring start k)
        (lent.rows reported.old values.old) (lent.rows documents.old scores.old)
        result (lent.rows reported.new values.new) (lent.rows documents.new scores.new) }
{
    let script: [f32; 0] = [];
    let rule = Rule::BestK(start, k);
    let r = run(file, query, mode, scoring, rule, &script, reported, values);
    match r {
        Outcome::Done(count) => {
            let m = gather(reported, values, count, k as usize, documents, scores);
            Outcome::Done(m)
        }
        Outcome::Full(_) => Outcome::Full(0),
        Outcome::Refused(_) => r,
    }
}

// The k best notes of a query, over any file, query and rows.
pub fn find(
    file: &[u8],
    query: &[u32],
    mode: Mode,
    scoring: Scoring,
    start: f32,
    k: u32,
    reported: &mut [u32],
    values: &mut [f32],
    documents: &mut [u32],
    scores: &mut [f32],
) -> Outcome
    ensures { FindIs (sought file.now query.now mode scoring start k)
        (lent.rows reported.old values.old) (lent.rows documents.old scores.old)
        result (lent.rows reported.new values.new) (lent.rows documents.new scores.new) }
{
    if rows(documents, scores) < k as usize {
        let script: [f32; 0] = [];
        return match check_request(file, query, mode, scoring, Rule::BestK(start, k), &script) {
            Err(refusal) => Outcome::Refused(refusal),
            Ok(()) => Outcome::Refused(Refusal::Notes),
        };
    }
    best_of_run(
        file, query, mode, scoring, start, k, reported, values, documents, scores,
    )
}
