// Which of a block's 128 scores is the highest.
ghost use Rattle.std.specs.Prelude.{◌≡◌, ◌<◌, get_or};
ghost use Rattle.std.specs.Float.{nan};
ghost use Rattle.bm25_pair.specs.Pair.{highest};
ghost use Rattle.posting_tests.specs.Inner.Tops.{Numbers, IsTop};

use floats::larger;

// The highest score. Eight maxima run beside each other, since each waits for the one before it.
fn top_score(scores: &[f32; 128]) -> f32
    requires { Numbers scores.now }
    ensures { IsTop scores.now result }
{
    let mut a = scores[0];
    let mut b = scores[1];
    let mut c = scores[2];
    let mut d = scores[3];
    let mut e = scores[4];
    let mut f = scores[5];
    let mut g = scores[6];
    let mut h = scores[7];
    for row in 1..16 {
        let i = 8 * row;
        a = larger(a, scores[i]);
        b = larger(b, scores[i + 1]);
        c = larger(c, scores[i + 2]);
        d = larger(d, scores[i + 3]);
        e = larger(e, scores[i + 4]);
        f = larger(f, scores[i + 5]);
        g = larger(g, scores[i + 6]);
        h = larger(h, scores[i + 7]);
    }
    let low = larger(larger(a, b), larger(c, d));
    let high = larger(larger(e, f), larger(g, h));
    larger(low, high)
}

// The place of the highest score, the first among equals.
pub fn top_of(scores: &[f32; 128]) -> usize
    requires { Numbers scores.now }
    ensures { (result ≡ highest (λ i. get_or scores.now i nan) 128) × (result < 128) }
{
    let top = top_score(scores);
    for i in 0..127 {
        if scores[i] == top {
            return i;
        }
    }
    127
}
