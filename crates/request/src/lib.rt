// What a run is asked for: a file, a query, a mode, a scoring and a rule; and whether it is refused before it begins.
#![tactic(auto)]

ghost use Rattle.std.specs.Prelude.{◌≡◌};
ghost use Rattle.notefile.specs.Refusal.{first_refusal};
ghost use Rattle.outcome.specs.Refusals.{refusal_number};
ghost use Rattle.request.specs.Request.{asked, numbers_right, count_right, query_right, query_tests, refusal_of};

use bm25::Scoring;
use notecheck::check::check;
use notefile::header::read_header;
use outcome::refusal::Refusal;
use rule::Rule;
use rulecheck::rule_right;

// Which documents match: those of any list of the query, of all its lists, or of its one list.
#[derive(Clone, Copy)]
pub enum Mode {
    Union,
    Intersection,
    Single,
}

// Whether every number of the query is a list's.
fn numbers_right(lists: usize, query: &[u32]) -> bool
    ensures { result ≡ numbers_right lists query.now }
{
    for i in 0..query.len() {
        if lists <= query[i] as usize {
            return false;
        }
    }
    true
}

// Whether the mode takes a query of n numbers.
fn count_right(mode: Mode, n: usize) -> bool
    ensures { result ≡ count_right mode n }
{
    match mode {
        Mode::Union => n <= 16,
        Mode::Intersection => {
            if 2 <= n {
                return n <= 16;
            }
            false
        }
        Mode::Single => n == 1,
    }
}

// Whether row 10 lets the query through.
fn query_right(lists: usize, mode: Mode, query: &[u32]) -> bool
    ensures { result ≡ query_right lists mode query.now }
{
    if numbers_right(lists, query) {
        return count_right(mode, query.len());
    }
    false
}

// Whether rows 1 to 10 let a file and a query through; the first that does not refuses them.
pub fn check_query(file: &[u8], query: &[u32], mode: Mode) -> Result<(), Refusal>
    ensures { refusal_number result ≡ first_refusal (query_tests file.now query.now mode) }
{
    check(file)?;
    let h = read_header(file);
    if query_right(h.lists, mode, query) {
        Ok(())
    } else {
        Err(Refusal::Query)
    }
}

// Whether rows 1 to 11 let a request through; the first that does not refuses it.
pub fn check_request(
    file: &[u8],
    query: &[u32],
    mode: Mode,
    scoring: Scoring,
    rule: Rule,
    script: &[f32],
) -> Result<(), Refusal>
    ensures { refusal_number result ≡ refusal_of (asked file.now query.now mode scoring rule script.now) }
{
    check_query(file, query, mode)?;
    if rule_right(rule, scoring, script) {
        Ok(())
    } else {
        Err(Refusal::Rule)
    }
}
