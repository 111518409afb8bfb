// The header.
ghost use Rattle.std.specs.Prelude.{◌≡◌, ◌≤◌, length};
ghost use Rattle.notefile.specs.Header.{average_bits, norm_reader};
ghost use Rattle.notefile.specs.Inner.Structs.{header_of};
ghost use Rattle.notefile.specs.Inner.Given.{HeaderIn};

use codec::bits::read_be;
use fieldnorm::FieldNormReader;

// The bytes of the header, and of a list's entry.
pub const HEADER_LENGTH: usize = 9;

pub const ENTRY_LENGTH: usize = 13;

// The header's fields but the average.
#[derive(Clone, Copy)]
pub struct Header {
    pub version: u32,
    pub kind: u32,
    pub lists: usize,
    pub code: u8,
    pub documents: u32,
    pub spare: u32,
}

// The header of a file that has one.
pub fn read_header(file: &[u8]) -> Header
    requires { 9 ≤ length file.now }
    ensures { result ≡ header_of file.now }
{
    let x = read_be(file, 0, 5);
    Header {
        version: ((x >> 36) % 16) as u32,
        kind: ((x >> 35) % 2) as u32,
        lists: ((x >> 30) % 32) as usize,
        code: ((x >> 22) % 256) as u8,
        documents: ((x >> 1) % 2097152) as u32,
        spare: (x % 2) as u32,
    }
}

// The average field length of list l, as bits: the header has one for every list.
pub fn read_average(file: &[u8], l: usize) -> u32
    requires { 9 ≤ length file.now }
    ensures { result ≡ average_bits file.now l }
{
    read_be(file, 5, 4) as u32
}

// Where the norm codes stand.
pub fn norm_reader(file: &[u8], h: Header) -> FieldNormReader
    requires { HeaderIn file.now h }
    ensures { result ≡ norm_reader file.now }
{
    if h.kind == 0 {
        return FieldNormReader::FromData(HEADER_LENGTH + ENTRY_LENGTH * h.lists);
    }
    FieldNormReader::Const(h.code)
}
