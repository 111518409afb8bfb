// What the table asks of a weight and an average, tested on the bits that the file has, before any float is made of them.
#![tactic(auto)]

ghost use Rattle.std.specs.Prelude.{◌≡◌};
ghost use Rattle.std.specs.Float.{binary32};
ghost use Rattle.std.specs.Float.Ieee.{of_bits};
ghost use Rattle.bm25.specs.Limits.{weight_ok, average_ok};

// 1,000, 0.0625 and 2,147,483,648: patterns of clear sign are in the order of their values.
const MAX_WEIGHT: u32 = 0x447a_0000;

const MIN_AVERAGE: u32 = 0x3d80_0000;

const MAX_AVERAGE: u32 = 0x4f00_0000;

// Whether row 4 lets a weight through, by its bits.
pub fn weight_ok(bits: u32) -> bool
    ensures { result ≡ weight_ok (of_bits binary32 bits) }
{
    bits <= MAX_WEIGHT
}

// Whether row 2 lets an average through, by its bits.
pub fn average_ok(bits: u32) -> bool
    ensures { result ≡ average_ok (of_bits binary32 bits) }
{
    if bits < MIN_AVERAGE {
        return false;
    }
    bits <= MAX_AVERAGE
}
