// The entry points with numbers and slices alone, as C calls them by the crate noterank_c.
#![tactic(auto)]

ghost use Rattle.std.specs.Prelude.{◌≡◌};
ghost use Rattle.notefile.specs.Refusal.{file_refusal};
ghost use Rattle.outcome.specs.Refusals.{refusal_number};
ghost use Rattle.reports.specs.Rows.{rows};
ghost use Rattle.request.specs.Request.{asked};
ghost use Rattle.ranking.specs.Demand.{result as returned};
ghost use Rattle.contents.specs.Contents.{handed};
ghost use Rattle.noterank.specs.Interface.{Ranked, Found, seeking, WroteFile};
ghost use Rattle.noterank.specs.Inner.Calls.{numbers_refusal, OutcomeBy};

use arguments::{mode_at, rule_at, scoring_at, short};
use bm25::Scoring;
use contents::Head;
use note_finder::find;
use note_writer::{length_of, number_of, write};
use notecheck::check::check;
use outcome::Outcome;
use outcome::refusal::{Refusal, refusal_number};
use ranking::plain::plain;
use ranking::skipping::run;
use request::{Mode, check_query};
use rule::Rule;

// 0 for an accepted file, or the number of its refusal.
pub fn noterank_check(file: &[u8]) -> u32
    ensures { result ≡ file_refusal file.now }
{
    refusal_number(check(file))
}

// Whether a walk, a mode, a scoring and a rule are among their numbers. Where one is not, what comes before it in the table's order refuses
// first.
fn check_numbers(
    file: &[u8],
    query: &[u32],
    walk: u32,
    mode: u32,
    scoring: u32,
    rule: u32,
) -> Result<(), Refusal>
    ensures { refusal_number result ≡ numbers_refusal file.now query.now walk mode scoring rule }
{
    if walk > 1 || mode > 2 {
        check(file)?;
        return Err(Refusal::Query);
    }
    if scoring > 1 || rule > 1 {
        check_query(file, query, mode_at(mode))?;
        return Err(Refusal::Rule);
    }
    Ok(())
}

// A run by its walk.
fn by_walk(
    file: &[u8],
    query: &[u32],
    walk: u32,
    mode: Mode,
    scoring: Scoring,
    rule: Rule,
    script: &[f32],
    documents: &mut [u32],
    scores: &mut [f32],
) -> Outcome
    ensures { let q = asked file.now query.now mode scoring rule script.now in
        OutcomeBy walk q (rows documents.old scores.old) result (rows documents.new scores.new) }
{
    if walk == 0 {
        return run(file, query, mode, scoring, rule, script, documents, scores);
    }
    plain(file, query, mode, scoring, rule, script, documents, scores)
}

// One run; the header says what each number stands for.
pub fn noterank_run(
    file: &[u8],
    query: &[u32],
    walk: u32,
    mode: u32,
    scoring: u32,
    rule: u32,
    start: f32,
    k: u32,
    script: &[f32],
    documents: &mut [u32],
    scores: &mut [f32],
    count: &mut u32,
) -> u32
    ensures { let old = rows documents.old scores.old in
        let new = rows documents.new scores.new in
        Ranked
        (record {
          file = file.now;
          query = query.now;
          walk = walk;
          mode = mode;
          scoring = scoring;
          rule = rule;
          start = start;
          k = k;
          script = script.now;
        })
        old (returned result count.new new) }
{
    if let Err(refusal) = check_numbers(file, query, walk, mode, scoring, rule) {
        *count = 0;
        return refusal.number();
    }
    let outcome = by_walk(
        file,
        query,
        walk,
        mode_at(mode),
        scoring_at(scoring),
        rule_at(rule, start, k),
        script,
        documents,
        scores,
    );
    *count = short(outcome.count());
    outcome.number()
}

// The note file of contents; the header says what each argument is.
pub fn noterank_write(
    documents: u32,
    kind: u32,
    code: u32,
    norms: &[u8],
    average: f32,
    weights: &[f32],
    counts: &[u32],
    docs: &[u32],
    freqs: &[u32],
    out: &mut [u8],
    length: &mut u32,
) -> u32
    ensures { let c = handed documents kind code norms.now average weights.now counts.now docs.now freqs.now in
        WroteFile c out.old result length.new out.new }
{
    let h = Head {
        documents,
        kind,
        code,
        average,
    };
    let answer = write(h, norms, weights, counts, docs, freqs, out);
    *length = short(length_of(answer));
    number_of(answer)
}

// The k best notes of a query; the header says what each argument is.
pub fn noterank_find(
    file: &[u8],
    query: &[u32],
    mode: u32,
    scoring: u32,
    start: f32,
    k: u32,
    report_documents: &mut [u32],
    report_scores: &mut [f32],
    documents: &mut [u32],
    scores: &mut [f32],
    count: &mut u32,
) -> u32
    ensures { let reports = rows report_documents.old report_scores.old in
        let reports' = rows report_documents.new report_scores.new in
        Found (seeking file.now query.now mode scoring start k) reports (rows documents.old scores.old)
        reports' (returned result count.new (rows documents.new scores.new)) }
{
    *count = 0;
    if let Err(refusal) = check_numbers(file, query, 0, mode, scoring, 1) {
        return refusal.number();
    }
    let outcome = find(
        file,
        query,
        mode_at(mode),
        scoring_at(scoring),
        start,
        k,
        report_documents,
        report_scores,
        documents,
        scores,
    );
    *count = short(outcome.count());
    outcome.number()
}
