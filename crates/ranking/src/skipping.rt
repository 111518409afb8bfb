// The skipping run of each mode.
ghost use Rattle.route.specs.F32.{f32};
ghost use Rattle.reports.specs.Rows.{rows};
ghost use Rattle.request.specs.Request.{asked};
ghost use Rattle.ranking.specs.Answers.{RunIs};

use crate::answer;
use beginning::{Settings, Way};
use bm25::Scoring;
use outcome::Outcome;
use request::{Mode, check_request};
use rule::Rule;

// A skipping run over any file, query and rule.
pub fn run(
    file: &[u8],
    query: &[u32],
    mode: Mode,
    scoring: Scoring,
    rule: Rule,
    script: &[f32],
    documents: &mut [u32],
    scores: &mut [f32],
) -> Outcome
    ensures { let q = asked file.now query.now mode scoring rule script.now in
        RunIs q (rows documents.old scores.old) result (rows documents.new scores.new) }
{
    if let Err(refusal) = check_request(file, query, mode, scoring, rule, script) {
        return Outcome::Refused(refusal);
    }
    let settings = Settings {
        mode,
        scoring,
        way: Way::Skipping,
        rule,
    };
    answer(file, query, settings, script, documents, scores)
}
