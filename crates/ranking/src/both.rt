// Both runs side by side: the function whose contract is demand 3.
ghost use Rattle.std.specs.Prelude.{◌≡◌};
ghost use Rattle.reports.specs.Rows.{rows};
ghost use Rattle.request.specs.Request.{asked};
ghost use Rattle.ranking.specs.Answers.{PlainIs, RunIs};
ghost use Rattle.ranking.specs.Demand.{start_at, from, result_of, Demand3};

use crate::plain::plain;
use crate::skipping::run;
use bm25::Scoring;
use outcome::Outcome;
use request::Mode;
use rule::Rule;

// What each run returned.
#[derive(Clone, Copy)]
pub struct Pair {
    pub skipping: Outcome,
    pub plain: Outcome,
}

// The same rule from another start.
fn restart(rule: Rule, start: f32) -> Rule
    ensures { result ≡ start_at rule start }
{
    match rule {
        Rule::Script(_) => Rule::Script(start),
        Rule::BestK(_, k) => Rule::BestK(start, k),
    }
}

// A skipping run by the rule, and a plain run by the rule from another start, each into its own rows.
pub fn both(
    file: &[u8],
    query: &[u32],
    mode: Mode,
    scoring: Scoring,
    rule: Rule,
    plain_start: f32,
    script: &[f32],
    documents: &mut [u32],
    scores: &mut [f32],
    plain_documents: &mut [u32],
    plain_scores: &mut [f32],
) -> Pair
    ensures { let q = asked file.now query.now mode scoring rule script.now in
        let p = from q plain_start in
        let new = rows documents.new scores.new in
        let new' = rows plain_documents.new plain_scores.new in
        RunIs q (rows documents.old scores.old) result.skipping new
        × PlainIs p (rows plain_documents.old plain_scores.old) result.plain new'
        × Demand3 q p (result_of result.skipping new) (result_of result.plain new') }
{
    let skipping = run(file, query, mode, scoring, rule, script, documents, scores);
    let other = restart(rule, plain_start);
    let scanned = plain(
        file,
        query,
        mode,
        scoring,
        other,
        script,
        plain_documents,
        plain_scores,
    );
    Pair {
        skipping,
        plain: scanned,
    }
}
