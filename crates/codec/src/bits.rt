// Whole numbers in bytes: most significant first, or little-endian.
ghost use Rattle.std.specs.Prelude.{◌≡◌, ◌+◌, ◌*◌, ◌≤◌, ◌<◌, length};
ghost use Rattle.codec.specs.Bits.{bits_at, word_at};

// A byte as a wider number.
pub fn wide(b: u8) -> u32
    ensures { (result ≡ b) × (result < 256) }
{
    u32::from(b)
}

// The number in n whole bytes, most significant first.
pub fn read_be(s: &[u8], at: usize, n: usize) -> u64
    requires { (n ≤ 8) × (at + n ≤ length s.now) }
    ensures { result ≡ bits_at s.now (8 * at) (8 * n) }
{
    let mut v: u64 = 0;
    for i in 0..n {
        v = v * 256 + u64::from(s[at + i]);
    }
    v
}

// A little-endian u32.
pub fn read_u32(s: &[u8], at: usize) -> u32
    requires { at + 4 ≤ length s.now }
    ensures { (result ≡ word_at s.now at) × (result < 4294967296) }
{
    u32::from_le_bytes([s[at], s[at + 1], s[at + 2], s[at + 3]])
}
