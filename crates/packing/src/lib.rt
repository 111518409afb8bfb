// Packed blocks: 128 values of one width from 0 to 32, in four lanes; and the least width that holds them.
#![tactic(auto)]

ghost use Rattle.std.specs.Prelude.{◌≡◌, ◌+◌, ◌*◌, ◌≤◌, ◌<◌, length};
ghost use Rattle.pieces.specs.Inner.Written.{Put};
ghost use Rattle.packing.specs.Packing.{packed_block};
ghost use Rattle.packing.specs.Width.{least_width};
ghost use Rattle.packing.specs.Inner.Fitting.{Fitting};

use pieces::write_low;

// The packed block of 128 values, a row of four lanes at a time: `word` words of each lane are written, and `shift` bits of it are kept.
pub fn pack(values: &[u32; 128], width: u32, out: &mut [u8], at: usize)
    requires { Fitting values.now width × (at + 16 * width ≤ length out.old) }
    ensures { Put out.old at (packed_block values.now width) out.new }
{
    let mut a: u64 = 0;
    let mut b: u64 = 0;
    let mut c: u64 = 0;
    let mut d: u64 = 0;
    let mut word: usize = 0;
    let mut shift: u32 = 0;
    for row in 0..32 {
        let i = 4 * row;
        a += u64::from(values[i]) << shift;
        b += u64::from(values[i + 1]) << shift;
        c += u64::from(values[i + 2]) << shift;
        d += u64::from(values[i + 3]) << shift;
        shift += width;
        if 32 <= shift {
            let p = at + 16 * word;
            write_low(out, p, a);
            write_low(out, p + 4, b);
            write_low(out, p + 8, c);
            write_low(out, p + 12, d);
            a = a >> 32;
            b = b >> 32;
            c = c >> 32;
            d = d >> 32;
            shift -= 32;
            word += 1;
        }
    }
}

// The least width that holds 128 values: that of all their bits together.
pub fn num_bits(values: &[u32; 128]) -> u32
    requires { length values.now ≡ 128 }
    ensures { result ≡ least_width values.now }
{
    let mut all: u32 = 0;
    for value in values {
        all |= *value;
    }
    32 - u32::leading_zeros(all)
}
