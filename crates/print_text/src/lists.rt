// The lists of a file, by its header.
ghost use Rattle.std.specs.Prelude.{◌≡◌, ◌≤◌};
ghost use Rattle.notefile.specs.Header.{list_count};
ghost use Rattle.notefile.specs.Refusal.{file_refusal};

use notefile::header::read_header;

// The header's number of lists. A query has at most 16, and a file of more is refused whatever the query, as is one without a header.
pub fn lists_of(file: &[u8]) -> usize
    ensures { (result ≤ 16) × (file_refusal file.now ≡ 0 → result ≡ list_count file.now) }
{
    if file.len() < 9 {
        return 0;
    }
    read_header(file).lists.min(16)
}
