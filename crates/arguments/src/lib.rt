// What the numbers of a call of the C interface stand for.
#![tactic(auto)]

ghost use Rattle.std.specs.Prelude.{◌≡◌, ◌<◌};
ghost use Rattle.arguments.specs.Numbers.{mode_at, rule_at, scoring_at};

use bm25::Scoring;
use request::Mode;
use rule::Rule;

// The mode, the scoring and the rule of a number. Not `TryFrom`: a number past the last is refused in the table's order, after the file.
pub fn mode_at(mode: u32) -> Mode
    ensures { result ≡ mode_at mode }
{
    match mode {
        0 => Mode::Union,
        1 => Mode::Intersection,
        _ => Mode::Single,
    }
}

pub fn scoring_at(scoring: u32) -> Scoring
    ensures { result ≡ scoring_at scoring }
{
    match scoring {
        0 => Scoring::Unstepped,
        _ => Scoring::Stepped,
    }
}

pub fn rule_at(rule: u32, start: f32, k: u32) -> Rule
    ensures { result ≡ rule_at rule start k }
{
    match rule {
        0 => Rule::Script(start),
        _ => Rule::BestK(start, k),
    }
}

// A list has at most a file's 1,048,576 documents, so its count fits 32 bits.
pub fn short(count: usize) -> u32
    requires { count < 4294967296 }
    ensures { result ≡ count }
{
    count as u32
}
