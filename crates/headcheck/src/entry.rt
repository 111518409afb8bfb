// Row 4 of the table: the lists' entries.
ghost use Rattle.std.specs.Prelude.{◌≡◌, ◌<◌};
ghost use Rattle.arrays.specs.Every.{every};
ghost use Rattle.notefile.specs.Conditions.{entry_right};
ghost use Rattle.notefile.specs.Inner.Given.{HeaderIn};

use codec::bits::read_be;
use notefile::header::{ENTRY_LENGTH, HEADER_LENGTH, Header};

// Whether row 4 lets list l's entry through.
fn entry_right(file: &[u8], h: Header, l: usize) -> bool
    requires { HeaderIn file.now h × (l < h.lists) }
    ensures { result ≡ entry_right file.now l }
{
    let e = HEADER_LENGTH + ENTRY_LENGTH * l;
    let weight = read_be(file, e, 4) as u32;
    let count = ((read_be(file, e + 4, 3) >> 3) % 2097152) as u32;
    if bm25_limits::weight_ok(weight) {
        return count <= h.documents;
    }
    false
}

// Whether row 4 lets every list's entry through.
pub fn entries_right(file: &[u8], h: Header) -> bool
    requires { HeaderIn file.now h }
    ensures { result ≡ every h.lists (entry_right file.now) }
{
    let lists = h.lists;
    let mut right = true;
    for l in 0..lists {
        if !entry_right(file, h, l) {
            right = false;
        }
    }
    right
}
