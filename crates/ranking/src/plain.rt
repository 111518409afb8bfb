// The plain run: every matching document upward.
ghost use Rattle.reports.specs.Rows.{rows};
ghost use Rattle.request.specs.Request.{asked};
ghost use Rattle.ranking.specs.Answers.{PlainIs};

use crate::answer;
use beginning::{Settings, Way};
use bm25::Scoring;
use outcome::Outcome;
use request::{Mode, check_request};
use rule::Rule;

// A plain run over any file, query and rule. It promises another list than `run`, so the two are no one function over the way.
pub fn plain(
    file: &[u8],
    query: &[u32],
    mode: Mode,
    scoring: Scoring,
    rule: Rule,
    script: &[f32],
    documents: &mut [u32],
    scores: &mut [f32],
) -> Outcome
    ensures { let q = asked file.now query.now mode scoring rule script.now in
        PlainIs q (rows documents.old scores.old) result (rows documents.new scores.new) }
{
    if let Err(refusal) = check_request(file, query, mode, scoring, rule, script) {
        return Outcome::Refused(refusal);
    }
    let settings = Settings {
        mode,
        scoring,
        way: Way::Plain,
        rule,
    };
    answer(file, query, settings, script, documents, scores)
}
