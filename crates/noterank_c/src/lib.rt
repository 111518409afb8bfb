// The C interface: what include/noterank.h declares, each function as noterank has it.
#![tactic(auto)]

ghost use Rattle.std.specs.Prelude.{◌≡◌};
ghost use Rattle.notefile.specs.Refusal.{file_refusal};
ghost use Rattle.reports.specs.Rows.{rows};
ghost use Rattle.ranking.specs.Demand.{result as returned};
ghost use Rattle.contents.specs.Contents.{handed};
ghost use Rattle.noterank.specs.Interface.{Ranked, Found, seeking, WroteFile};

// 0 for an accepted file, or the number of its refusal.
#[unsafe(no_mangle)]
pub extern "C" fn noterank_check(file: &[u8]) -> u32
    ensures { result ≡ file_refusal file.now }
{
    noterank::noterank_check(file)
}

// One run; the header says what each number stands for.
#[unsafe(no_mangle)]
pub extern "C" fn noterank_run(
    file: &[u8],
    query: &[u32],
    walk: u32,
    mode: u32,
    scoring: u32,
    rule: u32,
    start: f32,
    k: u32,
    script: &[f32],
    documents: &mut [u32],
    scores: &mut [f32],
    count: &mut u32,
) -> u32
    ensures { let old = rows documents.old scores.old in
        let new = rows documents.new scores.new in
        Ranked
        (record {
          file = file.now;
          query = query.now;
          walk = walk;
          mode = mode;
          scoring = scoring;
          rule = rule;
          start = start;
          k = k;
          script = script.now;
        })
        old (returned result count.new new) }
{
    noterank::noterank_run(
        file, query, walk, mode, scoring, rule, start, k, script, documents, scores, count,
    )
}

// The note file of contents; the header says what each argument is.
#[unsafe(no_mangle)]
pub extern "C" fn noterank_write(
    documents: u32,
    kind: u32,
    code: u32,
    norms: &[u8],
    average: f32,
    weights: &[f32],
    counts: &[u32],
    docs: &[u32],
    freqs: &[u32],
    out: &mut [u8],
    length: &mut u32,
) -> u32
    ensures { let c = handed documents kind code norms.now average weights.now counts.now docs.now freqs.now in
        WroteFile c out.old result length.new out.new }
{
    noterank::noterank_write(
        documents, kind, code, norms, average, weights, counts, docs, freqs, out, length,
    )
}

// The k best notes of a query; the header says what each argument is.
#[unsafe(no_mangle)]
pub extern "C" fn noterank_find(
    file: &[u8],
    query: &[u32],
    mode: u32,
    scoring: u32,
    start: f32,
    k: u32,
    report_documents: &mut [u32],
    report_scores: &mut [f32],
    documents: &mut [u32],
    scores: &mut [f32],
    count: &mut u32,
) -> u32
    ensures { let reports = rows report_documents.old report_scores.old in
        let reports' = rows report_documents.new report_scores.new in
        Found (seeking file.now query.now mode scoring start k) reports (rows documents.old scores.old)
        reports' (returned result count.new (rows documents.new scores.new)) }
{
    noterank::noterank_find(
        file,
        query,
        mode,
        scoring,
        start,
        k,
        report_documents,
        report_scores,
        documents,
        scores,
        count,
    )
}
