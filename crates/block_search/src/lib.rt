// The search in a block: the count of values below a target, by eight segments, eight segments of one of these, and two values;
// then a look at the value there.
#![tactic(auto)]

ghost use Rattle.std.specs.Prelude.{◌≡◌, ◌+◌, ◌*◌, ◌≤◌, ◌<◌, ltb};
ghost use Rattle.block_search.specs.Search.{count_below, holds_at, one_if, search_answer};
ghost use Rattle.block_search.specs.Inner.Answers.{index_of};
ghost use Rattle.block_search.specs.Inner.Segments.{Sorted, ends_below};

// The index of a hit, or the count of a miss: the library has no method that takes either side.
pub fn index_of(answer: Result<usize, usize>) -> usize
    ensures { result ≡ index_of answer }
{
    match answer {
        Ok(index) => index,
        Err(count) => count,
    }
}

// 1 if x is below the target.
fn below(x: u32, target: u32) -> usize
    ensures { (result ≡ one_if (ltb x target)) × (result ≤ 1) }
{
    if x < target { 1 } else { 0 }
}

// Of eight segments of `step` values from base on, how many of the first seven end below the target: the number of the segment in which the
// count lies.
fn segment(values: &[u32; 128], base: usize, step: usize, target: u32) -> usize
    requires { (0 < step) × (base + 8 * step ≤ 128) }
    ensures { (result ≡ ends_below 7 values.now base step target) × (result ≤ 7) }
{
    below(values[base + step - 1], target)
        + below(values[base + 2 * step - 1], target)
        + below(values[base + 3 * step - 1], target)
        + below(values[base + 4 * step - 1], target)
        + below(values[base + 5 * step - 1], target)
        + below(values[base + 6 * step - 1], target)
        + below(values[base + 7 * step - 1], target)
}

// How many values of a sorted block are below the target, from 0 to 128.
pub fn count_below(values: &[u32; 128], target: u32) -> usize
    requires { Sorted values.now }
    ensures { result ≡ count_below 128 values.now target }
{
    let far = 16 * segment(values, 0, 16, target);
    let near = far + 2 * segment(values, far, 2, target);
    near + below(values[near], target) + below(values[near + 1], target)
}

// Whether the value at the count is the target. Behind the last there is none.
fn holds(values: &[u32; 128], count: usize, target: u32) -> bool
    ensures { result ≡ holds_at values.now target count }
{
    if count < 128 {
        return values[count] == target;
    }
    false
}

// The search in a sorted block: a hit with its index, or a miss with the count of values below the target. The value at the count decides.
pub fn search_block(values: &[u32; 128], target: u32) -> Result<usize, usize>
    requires { Sorted values.now }
    ensures { result ≡ search_answer values.now target }
{
    let count = count_below(values, target);
    if holds(values, count, target) {
        Ok(count)
    } else {
        Err(count)
    }
}
