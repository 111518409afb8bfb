// The public entry points: a skipping run, a plain run, and both side by side. None asks anything of its arguments.
#![tactic(auto)]

pub mod both;
pub mod plain;
pub mod skipping;

ghost use Rattle.std.specs.Prelude.{◌≡◌};
ghost use Rattle.reports.specs.Rows.{rows};
ghost use Rattle.request.specs.Request.{asked, refusal_of};
ghost use Rattle.ranking.specs.Inner.Runs.{Listed};

use beginning::{Settings, begin};
use driver::drive;
use outcome::{Outcome, finish};

// The run of a request that is not refused: from its first place to its end, or to a report for which no row is left. Its tables stand
// here.
fn answer(
    file: &[u8],
    query: &[u32],
    settings: Settings,
    script: &[f32],
    documents: &mut [u32],
    scores: &mut [f32],
) -> Outcome
    requires { refusal_of (asked file.now query.now settings.mode settings.scoring settings.rule script.now) ≡ 0 }
    ensures { let q = asked file.now query.now settings.mode settings.scoring settings.rule script.now in
        Listed settings.way q (rows documents.old scores.old) result (rows documents.new scores.new) }
{
    let mut lists = [[0usize; 8]; 16];
    let mut norms = [[0.0f32; 256]; 16];
    let mut order = [0usize; 16];
    let mut places = [[0usize; 10]; 16];
    let mut blocks = [[[0u32; 128]; 2]; 16];
    let mut floats = [[0.0f32; 128]; 18];
    let task = begin(
        file,
        query,
        settings,
        &mut lists,
        &mut norms,
        &mut order,
        &mut places,
        &mut blocks,
    );
    let r = drive(
        file,
        script,
        task,
        &lists,
        &norms,
        &mut order,
        &mut places,
        &mut blocks,
        &mut floats,
        documents,
        scores,
    );
    finish(r.full, r.count)
}
