// Frequencies, and whether they are right.
#![tactic(auto)]

ghost use Rattle.std.specs.Prelude.{◌≡◌, ℕ, ◌<◌, ◌≤◌, length, slice_index};
ghost use Rattle.frequencies.specs.Frequencies.{freq_right};
ghost use Rattle.frequencies.specs.Inner.Counts.{Counted};

use compression::documents::gap;
use std::num::wrapping_add_u32;

// Whether f is from 1 to 2,013,265,944.
fn in_range(f: u32) -> bool
    ensures { result ≡ freq_right f }
{
    f != 0 && f <= 2013265944
}

// The first n values turned into frequencies, each in 32 bits, and whether all of them are right. A value + 1 that leaves 32 bits is 0, so
// the test sees it.
pub fn frequencies(values: &mut [u32; 128], n: usize, strict: bool) -> bool
    requires { (n ≤ 128) × (length values.old ≡ 128) × ((k : ℕ) → k < n → slice_index values.old k < 4294967296) }
    ensures { Counted values.old n strict result values.new }
{
    let add = gap(strict);
    let mut right = true;
    for i in 0..n {
        let f = wrapping_add_u32(values[i], add);
        values[i] = f;
        if !in_range(f) {
            right = false;
        }
    }
    right
}
