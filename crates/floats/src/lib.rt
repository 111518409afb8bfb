// Whole numbers as f32, the step of scores to multiples of 1/1024, the larger of two, and the thresholds of stepped runs.
#![tactic(auto)]

ghost use Rattle.std.specs.Prelude.{◌≡◌, ◌^◌, ◌<◌};
ghost use Rattle.std.specs.Float.Ieee.Nearest.{closest};
ghost use Rattle.floats.specs.Whole.{whole_f32};
ghost use Rattle.floats.specs.Step.{step_down};
ghost use Rattle.floats.specs.Threshold.{threshold_ok};
ghost use Rattle.floats.specs.Inner.Maximum.{larger};

// From here on an f32 is a multiple of 1/1024, and up to twice this no finer.
const GRID_BASE: f32 = 8192.0;

// 1/1024, the grid of stepped scores.
const STEP: f32 = 0.0009765625;

// n / 2^k as the nearest whole number, a tie to the even one.
fn rounded_shift(n: u32, k: u32) -> u32
    requires { (0 < k) × (k < 9) }
    ensures { result ≡ closest n (2 ^ k) }
{
    let unit: u32 = 1 << k;
    let kept = n >> k;
    let twice_rest = n % unit * 2;
    if twice_rest < unit {
        return kept;
    }
    if twice_rest > unit {
        return kept + 1;
    }
    kept + kept % 2
}

// The Rust's `n as f32`. Up to 2^24 every whole number is an f32; above that n keeps its 24 leading bits, rounded.
pub fn u32_to_f32(n: u32) -> f32
    ensures { result ≡ whole_f32 n }
{
    if n <= 16777216 {
        return n as f32;
    }
    let dropped = 8 - u32::leading_zeros(n);
    let unit: u32 = 1 << dropped;
    let kept = rounded_shift(n, dropped);
    (kept as f32) * (unit as f32)
}

// The cut of a score to the grid: x + 8192 is rounded to a multiple of 1/1024, which is one step too high at most. Which of the two it is
// no processor can foresee, so that what is taken off is chosen, and not the way.
pub fn step_down(x: f32) -> f32
    ensures { result ≡ step_down x }
{
    if x > 0.0 {
        if x < GRID_BASE {
            let near = (x + GRID_BASE) - GRID_BASE;
            let over = if near > x { STEP } else { 0.0 };
            return near - over;
        }
        return x;
    }
    0.0
}

// The larger of two scores, by comparison.
pub fn larger(x: f32, y: f32) -> f32
    ensures { result ≡ larger x y }
{
    if x < y {
        return y;
    }
    x
}

// Whether x may be a stepped run's threshold.
pub fn threshold_ok(x: f32) -> bool
    ensures { result ≡ threshold_ok x }
{
    if x > 0.0 {
        if x <= 16000.0 {
            return step_down(x) == x;
        }
        return false;
    }
    if x < 0.0 {
        if x >= -1.0 {
            let y = -x;
            return step_down(y) == y;
        }
        return false;
    }
    x == 0.0
}
