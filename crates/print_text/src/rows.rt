// Reports as text, a line for each row.
ghost use Rattle.std.specs.Prelude.{◌≡◌, ◌+◌, ◌*◌, ◌≤◌, T, length};
ghost use Rattle.floats.specs.Step.{steps};
ghost use Rattle.floats.specs.Threshold.{threshold_ok};
ghost use Rattle.reports.specs.Rows.{rows_in};
ghost use Rattle.print_text.specs.Text.{line, lines};
ghost use Rattle.print_text.specs.Inner.Putting.{Put, report, Ready};

use crate::text::{put, put_number};

// A score in steps of 1/1024. A stepped run's are whole numbers of them, below 2^24, so the product is exact.
fn in_steps(score: f32) -> u64
    requires { T (threshold_ok score) }
    ensures { result ≡ steps score }
{
    if score > 0.0 {
        return std::num::truncating_f32_to_u64(score * 1024.0);
    }
    0
}

// One line.
fn put_row(document: u32, score: f32, out: &mut [u8], at: usize) -> usize
    requires at_in_bounds { at + 42 ≤ length out.old }
    requires t { T (threshold_ok score) }
    ensures { Put (line (report document score)) 42 at out.old result out.new }
{
    let number = document as u64;
    let steps = in_steps(score);
    let a = put_number(number, out, at);
    let b = put(b" ", out, a);
    let c = put_number(steps, out, b);
    put(b"\n", out, c)
}

// The lines of the first rows.
pub fn put_rows(documents: &[u32], scores: &[f32], count: usize, out: &mut [u8], at: usize) -> usize
    requires count_in_bounds { at + 42 * count ≤ length out.old }
    requires ready { Ready count documents.now scores.now }
    ensures { Put (lines (rows_in count documents.now scores.now)) (42 * count) at out.old result out.new }
{
    let mut end = at;
    for i in 0..count {
        end = put_row(documents[i], scores[i], out, end);
    }
    end
}
