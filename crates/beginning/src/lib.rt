// A run as it begins: its lists opened in slots of their own, and its machine at the route's first place.
#![tactic(auto)]

ghost use Rattle.std.specs.Prelude.{◌≡◌, ◌≤◌};
ghost use Rattle.notefile.specs.Header.{norm_reader};
ghost use Rattle.query.specs.Inner.Openings as opening;
ghost use Rattle.query.specs.Inner.Openings.{Room};
ghost use Rattle.beginning.specs.Inner.Begins.{plain_from, single_from, Began, Opens, Right, TaskBegun, UnionBegun};

use block_wand_intersection::begin::begin as begin_all;
use bm25::Scoring;
use machine::{Machine, Task};
use notefile::header::{norm_reader, read_header};
use ordering::retain;
use plain_scan::Plain;
use query::open_lists;
use request::Mode;
use rule::Rule;
use single_hunt::{Phase, Single};
use slot_rows::place::{Blocks, Places};
use term_scorer::TermScorer;
use term_scorer::score::Similarity;

// The skipping run of its mode, or the plain scan.
#[derive(Clone, Copy)]
pub enum Way {
    Skipping,
    Plain,
}

// How a query is run.
#[derive(Clone, Copy)]
pub struct Settings {
    pub mode: Mode,
    pub scoring: Scoring,
    pub way: Way,
    pub rule: Rule,
}

// The plain scan, from document 0. In an intersection a document must be in every list.
fn begin_plain(mode: Mode, n: usize) -> Machine
    ensures { result ≡ plain_from mode n }
{
    let all = match mode {
        Mode::Union => false,
        Mode::Intersection => true,
        Mode::Single => false,
    };
    let plain = Plain {
        len: n,
        all,
        doc: 0,
    };
    Machine::Plain(plain)
}

// The single scan goes on with the scorer that is open.
fn begin_single(only: TermScorer) -> Machine
    ensures { result ≡ single_from only }
{
    let single = Single {
        slot: only.slot,
        doc: only.doc,
        phase: Phase::Hunt,
    };
    Machine::Single(single)
}

// The union: empty lists drop out; of one that is left the single scan runs.
fn begin_union(scorers: [TermScorer; 16], n: usize, order: &mut [usize; 16]) -> Machine
    requires { n ≤ 16 }
    ensures { UnionBegun scorers n result order.old order.new }
{
    let live = retain(scorers, n);
    if live.len == 1 {
        let left = live.scorers;
        let only = left[0];
        return begin_single(only);
    }
    let union = block_wand_union::begin(live, order);
    Machine::Union(union)
}

// The machine of the run that is asked for, over lists that are open.
fn begin_machine(
    file: &[u8],
    similarity: Similarity,
    query: &[u32],
    settings: Settings,
    scorers: [TermScorer; 16],
    lists: &[[usize; 8]; 16],
    norms: &[[f32; 256]; 16],
    order: &mut [usize; 16],
    places: &Places,
    blocks: &Blocks,
) -> Machine
    requires { let opened = opening.tables lists.now norms.now places.now blocks.now in
        (similarity.norms ≡ norm_reader file.now) × Right file.now query.now settings.mode
        × Opens similarity file.now query.now opened scorers }
    ensures { let opened = opening.tables lists.now norms.now places.now blocks.now in
        Began settings.way similarity file.now query.now settings.mode opened order.new result }
{
    let n = query.len();
    let mode = settings.mode;
    let way = settings.way;
    match way {
        Way::Skipping => match mode {
            Mode::Union => begin_union(scorers, n, order),
            Mode::Intersection => {
                let begun = begin_all(file, similarity, lists, norms, n, order, places, blocks);
                Machine::Intersection(begun)
            }
            Mode::Single => {
                let only = scorers[0];
                begin_single(only)
            }
        },
        Way::Plain => begin_plain(mode, n),
    }
}

// The query's lists opened, and what is driven over them.
pub fn begin(
    file: &[u8],
    query: &[u32],
    settings: Settings,
    lists: &mut [[usize; 8]; 16],
    norms: &mut [[f32; 256]; 16],
    order: &mut [usize; 16],
    places: &mut Places,
    blocks: &mut Blocks,
) -> Task
    requires { let room = opening.tables lists.old norms.old places.old blocks.old in
        Right file.now query.now settings.mode × Room room }
    ensures { let opened = opening.tables lists.new norms.new places.new blocks.new in
        TaskBegun settings file.now query.now opened order.new result }
{
    let h = read_header(file);
    let reader = norm_reader(file, h);
    let scoring = settings.scoring;
    let similarity = Similarity {
        norms: reader,
        scoring,
    };
    let scorers = open_lists(file, h, scoring, query, lists, norms, places, blocks);
    let machine = begin_machine(
        file, similarity, query, settings, scorers, lists, norms, order, places, blocks,
    );
    let rule = settings.rule;
    Task {
        similarity,
        machine,
        rule,
    }
}
