// Skip entries.
ghost use Rattle.std.specs.Prelude.{◌≡◌, ◌+◌, ◌≤◌, ◌<◌, length};
ghost use Rattle.pieces.specs.Inner.Written.{Put};
ghost use Rattle.encode.specs.SkipEntry.{skip_entry};

use pieces::write_low;

// The 8 bytes of a skip entry of kind 0, of a strict block.
pub fn write_skip_entry(
    out: &mut [u8],
    at: usize,
    last: u32,
    doc_bits: u32,
    freq_bits: u32,
    norm_code: u8,
    freq_code: u8,
)
    requires { (doc_bits < 32) × (freq_bits ≤ 32) × (at + 8 ≤ length out.old) }
    ensures { Put out.old at (skip_entry last doc_bits freq_bits norm_code freq_code) out.new }
{
    write_low(out, at, u64::from(last));
    out[at + 4] = (doc_bits + 64) as u8;
    out[at + 5] = freq_bits as u8;
    out[at + 6] = norm_code;
    out[at + 7] = freq_code;
}
