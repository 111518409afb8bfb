// The one loop that drives the machine of any mode: rows are written and the threshold is moved here alone.
#![tactic(auto)]

ghost use Rattle.std.specs.Prelude.{◌≡◌};
ghost use Rattle.rule.specs.Inner.Follows.{Keeps};
ghost use Rattle.notefile.specs.Header as header;
ghost use Rattle.notefile.specs.Header.{norm_reader};
ghost use Rattle.machine.specs.Inner.Kept.{KeptIn};
ghost use Rattle.machine.specs.Inner.Stands.{tables, place_in, StandsIn};
ghost use Rattle.driver.specs.Inner.Drives.{leg_to, stopped_as, Drives};

use machine::{Machine, Task, go_on};
use reports::{Event, report, rows};
use rule::Threshold;
use slot_rows::place::{Blocks, Places};
use term_scorer::Floats;
use term_scorer::score::{Leg, Similarity};

// Where the run stopped, whether a report found every row full, and how many rows are written. A count stands beside either answer of
// `full`, so the flag hides no Option.
#[derive(Clone, Copy)]
pub struct Driven {
    pub machine: Machine,
    pub full: bool,
    pub count: usize,
}

// As many turns as may be: no run takes so many.
const TURNS: usize = 18446744073709551615;

// The run as it stopped.
fn stopped(machine: Machine, full: bool, count: usize) -> Driven
    ensures { result ≡ stopped_as machine full count }
{
    Driven {
        machine,
        full,
        count,
    }
}

// As far as the next report.
fn leg_to(similarity: Similarity, threshold: f32) -> Leg
    ensures { result ≡ leg_to similarity threshold }
{
    Leg {
        similarity,
        threshold,
        turns: TURNS,
    }
}

// From report to report: each goes to the next row and moves the threshold, to the route's end or to a report for which no row is left.
pub fn drive(
    file: &[u8],
    script: &[f32],
    task: Task,
    lists: &[[usize; 8]; 16],
    norms: &[[f32; 256]; 16],
    order: &mut [usize; 16],
    places: &mut Places,
    blocks: &mut Blocks,
    floats: &mut Floats,
    documents: &mut [u32],
    scores: &mut [f32],
) -> Driven
    requires { let old = tables order.old places.old blocks.old floats.old in
        (task.similarity.norms ≡ norm_reader file.now) × Keeps task.rule
        × StandsIn file.now task.similarity lists.now norms.now old task.machine
        × KeptIn (header.documents file.now) (place_in file.now task.similarity lists.now norms.now old task.machine) }
    ensures { let old = tables order.old places.old blocks.old floats.old in
        let new = tables order.new places.new blocks.new floats.new in
        Drives file.now script.now lists.now norms.now task old documents.old scores.old
        new documents.new scores.new result }
{
    let rule = task.rule;
    let room = rows(documents, scores);
    let mut now = task.machine;
    let mut t = Threshold::new(rule);
    let mut best = [0.0f32; 64];
    loop {
        let leg = leg_to(task.similarity, t.now);
        let g = go_on(file, leg, now, lists, norms, order, places, blocks, floats);
        now = g.to;
        let event = g.event;
        match event {
            Event::Report(doc, score) => {
                if t.reports == room {
                    return stopped(now, true, room);
                }
                t = report(rule, script, t, doc, score, &mut best, documents, scores);
            }
            Event::Over => return stopped(now, false, t.reports),
            Event::Paused => {}
        }
    }
}
