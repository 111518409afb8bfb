// Whether a run may go by a rule.
#![tactic(auto)]

ghost use Rattle.std.specs.Prelude.{◌≡◌};
ghost use Rattle.rulecheck.specs.Right.{is_finite, threshold_right, script_right, rule_right};

use bm25::Scoring;
use rule::Rule;

// An infinity or a NaN less itself is a NaN.
fn finite(x: f32) -> bool
    ensures { result ≡ is_finite x }
{
    x - x == 0.0
}

// Whether row 11 lets x be a threshold of a run in this scoring.
fn threshold_right(scoring: Scoring, x: f32) -> bool
    ensures { result ≡ threshold_right scoring x }
{
    match scoring {
        Scoring::Unstepped => finite(x),
        Scoring::Stepped => floats::threshold_ok(x),
    }
}

// Whether the script's thresholds are right, and none is below the one before it.
fn script_right(scoring: Scoring, start: f32, script: &[f32]) -> bool
    ensures { result ≡ script_right scoring start script.now }
{
    let mut last = start;
    for i in 0..script.len() {
        let x = script[i];
        if threshold_right(scoring, x) {
            if x < last {
                return false;
            }
        } else {
            return false;
        }
        last = x;
    }
    true
}

// Whether a run may go by the rule: what refusal 11 tests.
pub fn rule_right(rule: Rule, scoring: Scoring, script: &[f32]) -> bool
    ensures { result ≡ rule_right rule scoring script.now }
{
    match rule {
        Rule::Script(start) => {
            if threshold_right(scoring, start) {
                return script_right(scoring, start, script);
            }
            false
        }
        Rule::BestK(start, k) => {
            if threshold_right(scoring, start) {
                if 1 <= k {
                    return k <= 64;
                }
            }
            false
        }
    }
}
