// The header and the lists' entries, made of bit fields.
ghost use Rattle.std.specs.Prelude.{◌+◌, ◌≤◌, length};
ghost use Rattle.pieces.specs.Inner.Written.{Put};
ghost use Rattle.encode.specs.Fields.{field_bytes, header_fields, entry_fields};
ghost use Rattle.encode.specs.Inner.FieldsFit.{Fit};

use pieces::write_be;

// The 9 bytes of a header.
pub fn write_header(
    out: &mut [u8],
    at: usize,
    kind: u64,
    lists: u64,
    code: u64,
    documents: u64,
    average: u64,
)
    requires { Fit (header_fields kind lists code documents average) × (at + 9 ≤ length out.old) }
    ensures { Put out.old at (field_bytes 9 (header_fields kind lists code documents average)) out.new }
{
    write_be(
        out,
        at,
        5,
        68719476736 + kind * 34359738368 + lists * 1073741824 + code * 4194304 + documents * 2,
    );
    write_be(out, at + 5, 4, average);
}

// The 13 bytes of an entry. The skip length's low six bits stand beside the postings length.
pub fn write_entry(
    out: &mut [u8],
    at: usize,
    weight: u64,
    count: u64,
    kind: u64,
    skips: u64,
    postings: u64,
)
    requires { Fit (entry_fields weight count kind skips postings) × (at + 13 ≤ length out.old) }
    ensures { Put out.old at (field_bytes 13 (entry_fields weight count kind skips postings)) out.new }
{
    write_be(out, at, 4, weight);
    write_be(out, at + 4, 5, count * 524288 + kind * 262144 + skips / 64);
    write_be(out, at + 9, 4, skips % 64 * 67108864 + postings);
}
