// Bytes written into lent memory, one piece after another.
#![tactic(auto)]

ghost use Rattle.std.specs.Prelude.{◌+◌, ◌≤◌, length};
ghost use Rattle.pieces.specs.Bytes.{little_byte, big_byte};
ghost use Rattle.pieces.specs.Inner.Written.{Written, Put};

// The low four bytes of a number, little-endian.
pub fn write_low(out: &mut [u8], at: usize, v: u64)
    requires { at + 4 ≤ length out.old }
    ensures { Written out.old at 4 (little_byte v) out.new }
{
    for k in 0..4 {
        out[at + k] = ((v >> (8 * k)) % 256) as u8;
    }
}

// The low n bytes of a number, the highest first.
pub fn write_be(out: &mut [u8], at: usize, n: usize, v: u64)
    requires { (n ≤ 8) × (at + n ≤ length out.old) }
    ensures { Written out.old at n (big_byte n v) out.new }
{
    for k in 0..n {
        out[at + k] = ((v >> (8 * (n - 1 - k))) % 256) as u8;
    }
}

// All of a slice. By a loop: for `copy_from_slice`, whose places the compiler cannot tell apart here, the archive would need `memmove`.
pub fn copy_bytes(from: &[u8], out: &mut [u8], at: usize)
    requires { at + length from.now ≤ length out.old }
    ensures { Put out.old at from.now out.new }
{
    for i in 0..from.len() {
        out[at + i] = from[i];
    }
}
