// VInts in their shortest form.
ghost use Rattle.std.specs.Prelude.{◌≡◌, ℕ, ◌+◌, ◌≤◌, length, get_or};
ghost use Rattle.pieces.specs.Inner.Written.{Put};
ghost use Rattle.encode.specs.ShortVInt.{short_vint, vint_row};
ghost use Rattle.encode.specs.Inner.VIntBytes.{vint_length, row_length};

// How many bytes it has.
pub fn vint_len(v: u32) -> usize
    ensures { result ≡ vint_length v }
{
    if v < 128 {
        1
    } else if v < 16384 {
        2
    } else if v < 2097152 {
        3
    } else if v < 268435456 {
        4
    } else {
        5
    }
}

// How many bytes the first n numbers of a block have.
pub fn vints_len(values: &[u32; 128], n: usize) -> usize
    requires { (n ≤ 128) × (length values.now ≡ 128) }
    ensures { result ≡ row_length n (λ k. get_or values.now k 0) }
{
    let mut sum: usize = 0;
    for i in 0..n {
        sum += vint_len(values[i]);
    }
    sum
}

// The number written at a place, and the place after it.
pub fn write_vint(out: &mut [u8], at: usize, v: u32) -> usize
    requires { at + vint_length v ≤ length out.old }
    ensures { (result ≡ at + vint_length v) × Put out.old at (short_vint v) out.new }
{
    let mut rest = v;
    let mut n: usize = 0;
    while rest >= 128 {
        out[at + n] = (rest % 128) as u8;
        rest = rest / 128;
        n += 1;
    }
    out[at + n] = (rest + 128) as u8;
    at + n + 1
}

// The first n numbers of a block, one VInt after another, and the place after them.
pub fn write_vints(values: &[u32; 128], n: usize, out: &mut [u8], at: usize) -> usize
    requires { (n ≤ 128) × (length values.now ≡ 128) × (at + row_length n (λ k. get_or values.now k 0) ≤ length out.old) }
    ensures { let numbers : ℕ → ℕ = λ k. get_or values.now k 0 in
        (result ≡ at + row_length n numbers) × Put out.old at (vint_row n numbers) out.new }
{
    let mut p = at;
    for i in 0..n {
        p = write_vint(out, p, values[i]);
    }
    p
}
