// A packed block by its width: 128 values of one width from 0 to 32, in four lanes. Each width is a constant of a function of its own, so
// that the compiler lays out its rows one after another, each shift a constant.
#![tactic(auto)]

ghost use Rattle.std.specs.Prelude.{◌≡◌, ◌+◌, ◌*◌, ◌≤◌, length};
ghost use Rattle.bitpacker.specs.Inner.Rows.{InBytes, Unpacked};

use bitpacker::{copy, eight};

// The 128 values of a block of W bits each, by quarters of eight rows. A quarter has 8 * W bits of each lane, so that the second, third and
// fourth begin at that place, at twice and at three times as much.
fn of_width<const W: u32>(s: &[u8], at: usize, out: &mut [u32; 128])
    requires { InBytes (length s.now) at W }
    ensures { Unpacked s.now at W out.new }
{
    eight(s, at, W, 0, 0, 0, out);
    eight(s, at, W, (W / 4) as usize, 8 * (W % 4), 32, out);
    eight(s, at, W, (W / 2) as usize, 16 * (W % 2), 64, out);
    eight(s, at, W, (3 * W / 4) as usize, 8 * (3 * W % 4), 96, out);
}

// The 128 values of the packed block at a place. A block of no width has no words.
pub fn unpack(s: &[u8], at: usize, width: u32, out: &mut [u32; 128])
    requires { (width ≤ 32) × (at + 16 * width ≤ length s.now) × (length out.old ≡ 128) }
    ensures { Unpacked s.now at width out.new }
{
    match width {
        0 => *out = [0; 128],
        1 => of_width::<1>(s, at, out),
        2 => of_width::<2>(s, at, out),
        3 => of_width::<3>(s, at, out),
        4 => of_width::<4>(s, at, out),
        5 => of_width::<5>(s, at, out),
        6 => of_width::<6>(s, at, out),
        7 => of_width::<7>(s, at, out),
        8 => of_width::<8>(s, at, out),
        9 => of_width::<9>(s, at, out),
        10 => of_width::<10>(s, at, out),
        11 => of_width::<11>(s, at, out),
        12 => of_width::<12>(s, at, out),
        13 => of_width::<13>(s, at, out),
        14 => of_width::<14>(s, at, out),
        15 => of_width::<15>(s, at, out),
        16 => of_width::<16>(s, at, out),
        17 => of_width::<17>(s, at, out),
        18 => of_width::<18>(s, at, out),
        19 => of_width::<19>(s, at, out),
        20 => of_width::<20>(s, at, out),
        21 => of_width::<21>(s, at, out),
        22 => of_width::<22>(s, at, out),
        23 => of_width::<23>(s, at, out),
        24 => of_width::<24>(s, at, out),
        25 => of_width::<25>(s, at, out),
        26 => of_width::<26>(s, at, out),
        27 => of_width::<27>(s, at, out),
        28 => of_width::<28>(s, at, out),
        29 => of_width::<29>(s, at, out),
        30 => of_width::<30>(s, at, out),
        31 => of_width::<31>(s, at, out),
        _ => copy(s, at, out),
    }
}
