// What the program prints of a file.
ghost use Rattle.std.specs.Prelude.{◌≡◌, ◌++◌, ◌≤◌, length, drop};
ghost use Rattle.print.specs.Printed.{printed};

use bm25::Scoring;
use print_text::lists::lists_of;
use print_text::run::put_ranking;
use request::Mode;
use rule::Rule;

// Room for a first line and 4,096 rows, each number of at most 20 digits.
pub const ROOM: usize = 172061;

// The file's text at the start of `out`; how many bytes it has.
pub fn render(file: &[u8], out: &mut [u8; ROOM]) -> usize
    ensures { let text = printed file.now in
        (out.new ≡ text ++ drop (length text) out.old) × (result ≡ length text) × (result ≤ 172061) }
{
    let query = [0u32, 1, 2, 3, 4, 5, 6, 7, 8, 9, 10, 11, 12, 13, 14, 15];
    let script = [0.0f32; 1];
    let mut documents = [0u32; 4096];
    let mut scores = [0.0f32; 4096];
    let lists = lists_of(file);
    let outcome = ranking::skipping::run(
        file,
        &query[..lists],
        Mode::Union,
        Scoring::Stepped,
        Rule::Script(0.0),
        &script[..0],
        &mut documents,
        &mut scores,
    );
    put_ranking(outcome.number(), outcome.count(), &documents, &scores, out)
}
