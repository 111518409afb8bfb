// Where an intersection's run stands: its struct, by the stage, and the steps from a stage to the next.
#![tactic(auto)]

ghost use Rattle.std.specs.Prelude.{cond, ◌≡◌};
ghost use Rattle.route.specs.F32.{f32};
ghost use Rattle.intersection_candidate.specs.Inner.Candidates.{behind};
ghost use Rattle.intersection_stage.specs.Inner.Steps.{behind_candidate, over_in, quietly};
ghost use Rattle.intersection_stage.specs.declared.Stage.TheVariants.{Over, Within};

use intersection_candidate::candidate::Posting;
use intersection_candidate::leader::Candidates;
use reports::Step;

// At the early exit; at `while doc < TERMINATED`; at the candidates left of a window; behind a call of the callback; returned.
#[derive(Clone, Copy)]
pub enum Stage {
    Early,
    Window,
    Within(Candidates),
    Called(Candidates),
    Over,
}

// How many scorers there are, where the window begins, `leader_max_score + secondaries_global_max_sum`, and the stage.
#[derive(Clone, Copy)]
pub struct Intersection {
    pub len: usize,
    pub doc: u32,
    pub max_sum: f32,
    pub stage: Stage,
}

// Whether the run has returned.
pub fn is_over(v: Intersection) -> bool
    ensures { result ≡ over_in v.stage }
{
    matches!(v.stage, Stage::Over)
}

// A turn without a report.
pub fn quiet(v: Intersection, doc: u32, stage: Stage) -> Step<Intersection>
    ensures { result ≡ quietly v doc stage }
{
    Step {
        to: Intersection { doc, stage, ..v },
        due: None,
    }
}

// The candidates of an open window, from place `next` of the leader's block on.
pub fn within(next: usize, window_end: u32, score_threshold: f32) -> Stage
    ensures { result ≡ Within (record { next = next; window_end = window_end; score_threshold = score_threshold }) }
{
    let left = Candidates {
        next,
        window_end,
        score_threshold,
    };
    Stage::Within(left)
}

// The two exits: on to the stage where a document can still exceed the threshold, else over.
pub fn exit(v: Intersection, threshold: f32, stage: Stage) -> Step<Intersection>
    ensures { result ≡ quietly v v.doc (cond (f32.above v.max_sum threshold) stage Over) }
{
    if v.max_sum > threshold {
        return quiet(v, v.doc, stage);
    }
    quiet(v, v.doc, Stage::Over)
}

// Behind a candidate that was tried: a report is due, and the exit follows; or the next candidate.
pub fn after_candidate(
    v: Intersection,
    left: Candidates,
    next: usize,
    candidate: Posting,
    tried: Option<f32>,
) -> Step<Intersection>
    ensures { result ≡ behind_candidate v (behind left next) candidate tried }
{
    let rest = Candidates { next, ..left };
    let Some(score) = tried else {
        return quiet(v, v.doc, Stage::Within(rest));
    };
    let stage = Stage::Called(rest);
    Step {
        to: Intersection { stage, ..v },
        due: Some((candidate.doc, score)),
    }
}
