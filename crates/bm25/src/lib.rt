// BM25 over ready weights: norms, scores and bounds, unstepped or stepped.
#![tactic(auto)]

mod lengths;

ghost use Rattle.std.specs.Prelude.{◌≡◌, ℕ, not, T};
ghost use Rattle.std.specs.Float.{binary32};
ghost use Rattle.std.specs.Float.Ieee.{add, mul, div, nan_bits, of_bits};
ghost use Rattle.floats.specs.Whole.{whole_f32};
ghost use Rattle.bm25.specs.Score.{norm_of, score_at};
ghost use Rattle.bm25.specs.Scoring.{scored};
ghost use Rattle.bm25.specs.Bound.{max_tf};
ghost use Rattle.bm25.specs.Inner.Weight.{NormsOf, WeightOf, score_in};
ghost use Rattle.bm25.specs.Inner.Bound.{list_bound_in, block_bound_in};

// BM25's two constants, as 01 gives them.
const K1: f32 = 1.2;

const B: f32 = 0.75;

// The highest norm code and the highest frequency: the list bound's pair.
const MAX_FIELDNORM_ID: u8 = 255;

const MAX_TERM_FREQ: u32 = 2013265944;

// Whether scores and bounds are cut down to multiples of 1/1024.
#[derive(Clone, Copy)]
pub enum Scoring {
    Unstepped,
    Stepped,
}

// Weight, average and the 256 cached norms of one list.
#[derive(Clone, Copy)]
pub struct Bm25Weight {
    pub weight: f32,
    pub average: f32,
    pub cache: [f32; 256],
}

// The norm of a length, which comes as f32.
fn cached_tf_component(fieldnorm: f32, average: f32) -> f32
    ensures { (n : ℕ) → fieldnorm ≡ whole_f32 n → result ≡ norm_of n average }
{
    K1 * ((1.0 - B) + (B * fieldnorm) / average)
}

// The norms of all codes.
pub fn compute_tf_cache(average: f32) -> [f32; 256]
    ensures { NormsOf average result }
{
    let lengths = lengths::field_lengths();
    let mut cache = [0.0f32; 256];
    for i in 0..256 {
        cache[i] = cached_tf_component(lengths[i], average);
    }
    cache
}

// The norms of an average, made again only where those at hand are another's. Averages are told apart by their bits.
pub fn renew_tf_cache(average: u32, at_hand: u32, cache: &mut [f32; 256])
    requires { T (not (nan_bits binary32 average)) × NormsOf (of_bits binary32 at_hand) cache.old }
    ensures { NormsOf (of_bits binary32 average) cache.new }
{
    if average == at_hand {
        return;
    }
    *cache = compute_tf_cache(f32::from_bits(average));
}

// The score of a frequency, made f32, at a norm.
pub fn score_at(weight: f32, norm: f32, tf: f32) -> f32
    ensures { result ≡ mul binary32 weight (div binary32 tf (add binary32 tf norm)) }
{
    weight * (tf / (tf + norm))
}

// A score as a scoring has it.
fn in_scoring(scoring: Scoring, score: f32) -> f32
    ensures { result ≡ scored scoring score }
{
    match scoring {
        Scoring::Unstepped => score,
        Scoring::Stepped => floats::step_down(score),
    }
}

// The frequency that a skip entry's maximum-frequency code stands for.
fn decode_block_wand_max_tf(max_tf_code: u8) -> u32
    ensures { result ≡ max_tf max_tf_code }
{
    if max_tf_code == 255 {
        return 4294967295;
    }
    max_tf_code as u32
}

// A full block's bound at the norm of its skip entry's code, from the entry's other code.
pub fn bound_at(scoring: Scoring, weight: f32, norm: f32, max_tf_code: u8) -> f32
    ensures { result ≡ scored scoring (score_at weight norm (max_tf max_tf_code)) }
{
    let tf = floats::u32_to_f32(decode_block_wand_max_tf(max_tf_code));
    in_scoring(scoring, score_at(weight, norm, tf))
}

impl Bm25Weight {
    // The struct of a list's weight and average, with the norm of every code.
    pub fn new(weight: f32, average: f32) -> Self
        ensures { WeightOf weight average result }
    {
        let cache = compute_tf_cache(average);
        Self {
            weight,
            average,
            cache,
        }
    }

    // One document's score.
    pub fn score(self, scoring: Scoring, fieldnorm_id: u8, term_freq: u32) -> f32
        ensures { result ≡ scored scoring (score_in self fieldnorm_id term_freq) }
    {
        let i = fieldnorm_id as usize;
        let tf = floats::u32_to_f32(term_freq);
        in_scoring(scoring, score_at(self.weight, self.cache[i], tf))
    }

    // The list bound.
    pub fn max_score(self, scoring: Scoring) -> f32
        ensures { result ≡ scored scoring (list_bound_in self) }
    {
        self.score(scoring, MAX_FIELDNORM_ID, MAX_TERM_FREQ)
    }

    // A full block's bound, from its skip entry's pair of codes.
    pub fn block_max_score(self, scoring: Scoring, fieldnorm_id: u8, max_tf_code: u8) -> f32
        ensures { result ≡ scored scoring (block_bound_in self fieldnorm_id max_tf_code) }
    {
        let i = fieldnorm_id as usize;
        bound_at(scoring, self.weight, self.cache[i], max_tf_code)
    }
}
