// VInts: seven bits a byte, low first, the high bit on the last byte.
ghost use Rattle.std.specs.Prelude.{◌≡◌, ◌≤◌, length};
ghost use Rattle.codec.specs.VInt.{vint_at};
ghost use Rattle.codec.specs.Inner.VIntRows.{VIntsRead};

// The VInt at a place of the bytes below end: its value and the place after it; none if it is not whole.
pub fn read_vint(s: &[u8], end: usize, at: usize) -> Option<(u32, usize)>
    requires { end ≤ length s.now }
    ensures { result ≡ vint_at s.now end at }
{
    let mut v: u64 = 0;
    let mut p = at;
    for n in 0..5u32 {
        let shift = 7 * n;
        if p >= end {
            return None;
        }
        let b = u64::from(s[p]);
        p += 1;
        if b >= 128 {
            let whole = v + ((b - 128) << shift);
            if whole > 4294967295 {
                return None;
            }
            return Some((whole as u32, p));
        }
        v += b << shift;
    }
    None
}

// The values of n VInts one after another, into the first n places, and the place after them; none if one of them is not whole.
pub fn read_vints(s: &[u8], end: usize, at: usize, n: usize, out: &mut [u32; 128]) -> Option<usize>
    requires { (end ≤ length s.now) × (n ≤ 128) × (length out.old ≡ 128) }
    ensures { VIntsRead s.now end at n out.old result out.new }
{
    let mut p = at;
    for i in 0..n {
        let (x, next) = read_vint(s, end, p)?;
        out[i] = x;
        p = next;
    }
    Some(p)
}
