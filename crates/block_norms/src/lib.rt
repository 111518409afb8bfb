// The norms of a block's postings, by their documents' codes.
#![tactic(auto)]

ghost use Rattle.std.specs.Prelude.{◌≡◌, true, ℕ, ◌+◌, ◌<◌, ◌≤◌, get_or, length};
ghost use Rattle.std.specs.Float.{nan};
ghost use Rattle.arrays.specs.Inner.Holds.{Holds};
ghost use Rattle.block_norms.specs.Inner.Block.{all_at_most, Gathered};
ghost use Rattle.block_norms.specs.Inner.Codes.{Below, ByCode, CodesIn, Places};

use fieldnorm::FieldNormReader;

// Norm codes that stand in a file: so many documents have theirs from this place on.
#[derive(Clone, Copy)]
struct Codes {
    start: usize,
    count: u32,
}

// A code as a place in the cache.
fn place(id: u8) -> usize
    ensures { (result ≡ id) × (result < 256) }
{
    id as usize
}

// A document's code, which stands in the file, as a place in the cache.
fn code_at(file: &[u8], start: usize, doc: u32) -> usize
    requires { start + doc < length file.now }
    ensures { (result ≡ get_or file.now (start + doc) 0) × (result < 256) }
{
    place(file[start + doc as usize])
}

// As many as a u32 can say.
fn counted(n: usize) -> u32
    ensures { result ≤ n }
{
    if n > 4294967295 {
        return 4294967295;
    }
    n as u32
}

// The codes that stand in a file; none where one code serves all documents.
fn codes_of(file: &[u8], reader: FieldNormReader) -> Codes
    ensures { CodesIn reader file.now result }
{
    match reader {
        FieldNormReader::FromData(start) => {
            if start < file.len() {
                let count = counted(file.len() - start);
                return Codes { start, count };
            }
            Codes { start, count: 0 }
        }
        FieldNormReader::Const(_) => Codes { start: 0, count: 0 },
    }
}

// Whether no number is over the limit.
pub fn all_at_most(xs: &[u32; 128], limit: u32) -> bool
    ensures { result ≡ all_at_most limit xs.now }
{
    let mut ok = true;
    for x in xs {
        if *x > limit {
            ok = false;
        }
    }
    ok
}

// Whether every document is one of the first `count`.
fn all_below(docs: &[u32; 128], count: u32) -> bool
    ensures { result ≡ true → Below count docs.now }
{
    if count == 0 {
        return false;
    }
    all_at_most(docs, count - 1)
}

// The norm of each posting, at the place in the cache that its document has by `place_of`.
fn gather<F: Fn(u32) -> usize>(
    place_of: F,
    cache: &[f32; 256],
    docs: &[u32; 128],
    norms: &mut [f32; 128],
)
    requires { Places (F.pre place_of) (F.post place_of) docs.now }
    ensures { (code : ℕ → ℕ) → ByCode code (F.post place_of) docs.now
        → Holds nan 128 (λ i. get_or cache.now (code (get_or docs.now i 0)) nan) norms.new }
{
    for i in 0..128 {
        let id = place_of(docs[i]);
        norms[i] = cache[id];
    }
}

// The norm of each posting, where the code of each document stands in the file: the loop has no branch.
fn read_within(
    file: &[u8],
    reader: FieldNormReader,
    codes: Codes,
    cache: &[f32; 256],
    docs: &[u32; 128],
    norms: &mut [f32; 128],
)
    requires { CodesIn reader file.now codes × Below codes.count docs.now }
    ensures { Gathered reader file.now cache.now docs.now norms.new }
{
    let start = codes.start;
    gather(|doc| code_at(file, start, doc), cache, docs, norms);
}

// The norm of each posting, of any documents.
fn read_each(
    file: &[u8],
    reader: FieldNormReader,
    cache: &[f32; 256],
    docs: &[u32; 128],
    norms: &mut [f32; 128],
)
    ensures { Gathered reader file.now cache.now docs.now norms.new }
{
    gather(
        |doc| place(reader.fieldnorm_id(file, doc)),
        cache,
        docs,
        norms,
    );
}

// The norm of each posting, by its document's code. In a sound file every code stands there.
pub fn read_norms(
    file: &[u8],
    reader: FieldNormReader,
    cache: &[f32; 256],
    docs: &[u32; 128],
    norms: &mut [f32; 128],
)
    ensures { Gathered reader file.now cache.now docs.now norms.new }
{
    let codes = codes_of(file, reader);
    if all_below(docs, codes.count) {
        read_within(file, reader, codes, cache, docs, norms);
        return;
    }
    read_each(file, reader, cache, docs, norms);
}

// The norm of each posting, where every document is one of the first `limit`: one test says whether their codes stand in the file.
pub fn read_norms_below(
    file: &[u8],
    reader: FieldNormReader,
    cache: &[f32; 256],
    docs: &[u32; 128],
    limit: u32,
    norms: &mut [f32; 128],
)
    requires { Below limit docs.now }
    ensures { Gathered reader file.now cache.now docs.now norms.new }
{
    let codes = codes_of(file, reader);
    if limit <= codes.count {
        read_within(file, reader, codes, cache, docs, norms);
        return;
    }
    read_each(file, reader, cache, docs, norms);
}
