// Code 4: the lowest value that is defined twice; and the values of declared results, found in one pass over the values.
#![tactic(auto)]

ghost use Rattle.std.specs.Prelude.{◌≡◌, ◌+◌, ◌≤◌, min, length, get_or};
ghost use Rattle.cells.specs.Lists.{below, flat};
ghost use Rattle.tables.specs.Sizes.{max_operations, max_entries};
ghost use Rattle.tables.specs.Tables.{cut, declared, arguments, result_types};
ghost use Rattle.listed.specs.Marks.{mark_all};
ghost use Rattle.values.specs.Guarded.{guarded_twice, Claimed};
ghost use Rattle.values.specs.Claims.{base_of, bases_after, put_claim, claims_after, value_in, seen_twice, lowest_seen};
ghost use Rattle.values.specs.Twice.{refused};

use tables::{Answer, Claim, Refusal, Tables};

// Where the results of each operation start among all of them, and in a cell for each one more than the value that claims it, or 0.
#[derive(Clone, Copy)]
pub struct Claims<'a> {
    pub bases: &'a [u64],
    pub claims: &'a [u64],
}

impl<'a> Claims<'a> {
    // What the claims hold of a declared result: one more than its value, or 0.
    fn number_at(&self, operation: u64, index: u64) -> u64
        ensures { result ≡ get_or self.now.claims.now (get_or self.now.bases.now operation 0 + index) 0 }
    {
        cells::cell(self.claims, 1, cells::at(self.bases, operation), index)
    }

    // The value of a declared result.
    pub fn value_at(&self, operation: u64, index: u64) -> Option<u64>
        ensures { result ≡ value_in (get_or self.now.claims.now (get_or self.now.bases.now operation 0 + index) 0) }
    {
        self.number_at(operation, index).checked_sub(1)
    }
}

// The sum of two numbers, where more than there may be list entries counts as one too many.
fn cut_sum(a: u64, b: u64) -> u64
    ensures { result ≡ min (a + b) (max_entries + 1) }
{
    a.saturating_add(b).min(tables::MAX_ENTRIES + 1)
}

// How many results the operation declares.
fn result_count(x: &Tables<'_, '_, '_>, operation: u64) -> u64
    ensures { result ≡ length (result_types x.now operation) }
{
    x.result_types(operation).len() as u64
}

// Where the results of each operation start among all, and how many there are.
fn fill_bases(x: &Tables<'_, '_, '_>, bases: &mut [u64]) -> u64
    ensures total { result ≡ base_of x.now x.now.counts.operations }
    ensures written { bases.new ≡ bases_after x.now bases.old }
{
    let mut sum = 0;
    for i in 0..x.counts().operations {
        cells::put(bases, i, sum);
        sum = cut_sum(sum, result_count(x, i));
    }
    sum
}

// A number at the cell of the declared result that is claimed.
#[tactic(auto, unfolding(crate::specs::Claims::put_claim))]
fn put_claim(
    x: &Tables<'_, '_, '_>,
    bases: &[u64],
    claims: &mut [u64],
    number: u64,
    claim: Option<Claim>,
)
    ensures { claims.new ≡ put_claim (declared x.now) bases.now number claim claims.old }
{
    let Some(Claim { operation, index }) = claim else {
        return;
    };
    if index < result_count(x, operation) {
        let base = cells::at(bases, operation);
        cells::put_cell(claims, 1, base, index, number);
    }
}

// One more than the lowest value that claims it, for each declared result that is claimed.
fn fill_claims(x: &Tables<'_, '_, '_>, bases: &[u64], claims: &mut [u64])
    ensures { claims.new ≡ claims_after x.now bases.now claims.old }
{
    for value in (0..x.counts().values).rev() {
        put_claim(x, bases, claims, value + 1, x.claim(value));
    }
}

// One more of each argument of each block.
fn mark_arguments(x: &Tables<'_, '_, '_>, marks: &mut [u64])
    ensures { marks.new ≡ mark_all marks.old (flat (arguments x.now) (below x.now.counts.blocks)) }
{
    for j in 0..x.counts().blocks {
        listed::mark_list(x.arguments(j), marks);
    }
}

// Whether a value is defined twice that is listed so many times and claims what is said.
#[tactic(auto, unfolding(crate::specs::Claims::seen_twice))]
fn seen_twice(
    x: &Tables<'_, '_, '_>,
    claims: Claims<'_>,
    times: u64,
    number: u64,
    claim: Option<Claim>,
) -> bool
    ensures { result ≡ seen_twice (declared x.now) claims.entry.bases.now claims.entry.claims.now times number claim }
{
    if 1 < times {
        return true;
    }
    let Some(Claim { operation, index }) = claim else {
        return false;
    };
    if result_count(x, operation) <= index {
        return false;
    }
    if 0 < times {
        return true;
    }
    claims.number_at(operation, index) != number
}

// The lowest value that is seen to be defined twice.
#[tactic(auto, using(listed::proofs::Find::find_step), unfolding(crate::specs::Claims::lowest_seen))]
fn lowest_seen(x: &Tables<'_, '_, '_>, marks: &[u64], claims: Claims<'_>) -> Answer
    ensures { result ≡ refused (lowest_seen x.now marks.now claims.entry.bases.now claims.entry.claims.now) }
{
    for value in 0..x.counts().values {
        let times = cells::at(marks, value);
        if seen_twice(x, claims, times, value + 1, x.claim(value)) {
            return Err(Refusal::DefinedTwice { value });
        }
    }
    Ok(())
}

// The lowest value that is defined twice, where the lent cells have room. Where code 1 passed, no more results are declared than there may
// be list entries.
fn claim_values(x: &Tables<'_, '_, '_>, bases: &mut [u64], claims: &mut [u64]) -> Answer
    ensures { max_operations ≤ length bases.old → max_entries ≤ length claims.old → Claimed result (cut x.now) bases.old claims.old bases.new claims.new }
{
    let x = x.cut();
    if tables::MAX_ENTRIES < fill_bases(&x, bases) {
        return Ok(());
    }
    let mut marks = [0u64; 4096];
    mark_arguments(&x, &mut marks);
    fill_claims(&x, bases, claims);
    lowest_seen(&x, &marks, Claims { bases, claims })
}

// The answer alone, with cells of its own.
fn answer_alone(x: &Tables<'_, '_, '_>) -> Answer
    ensures { result ≡ guarded_twice (cut x.now) }
{
    let mut bases = [0u64; 2048];
    let mut claims = [0u64; 8192];
    claim_values(x, &mut bases, &mut claims)
}

// The lowest value that is defined twice, whatever is lent; cells of full length that held zeros keep where results start and which value
// claims each.
pub fn values_claimed(x: &Tables<'_, '_, '_>, bases: &mut [u64], claims: &mut [u64]) -> Answer
    ensures { Claimed result (cut x.now) bases.old claims.old bases.new claims.new }
{
    if (bases.len() as u64) < tables::MAX_OPERATIONS {
        return answer_alone(x);
    }
    if (claims.len() as u64) < tables::MAX_ENTRIES {
        return answer_alone(x);
    }
    claim_values(x, bases, claims)
}
