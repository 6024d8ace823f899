// Codes 8, 6, 7 and 13: the numbers of the operands of each function's entry walk, function after function.
#![tactic(auto)]

ghost use Rattle.std.specs.Prelude.{◌≡◌, List, ℕ, ◌≤◌, length, take, Ok};
ghost use Rattle.tables.specs.Sizes.{max_entries, max_functions};
ghost use Rattle.tables.specs.Tables.{lent};
ghost use Rattle.values.specs.Claims.{Filled};
ghost use Rattle.table_checks.specs.Checks.{table_checks};
ghost use Rattle.nesting.specs.Numbering.{numbering as numbers_of};
ghost use Rattle.numbering_walk.specs.Walk.{Tells};
ghost use Rattle.numbering.specs.Alone.{outcome, sizes, filled_by, handed_over, numbering_alone};
ghost use Rattle.numbering.specs.Fill.{Room, Told, entries_numbered};

use cells::Span;
use scope::Live;
use tables::{Refusal, Tables};
use values::Claims;

// As many values as a small stack takes.
const FEW_VALUES: u64 = 512;

// Each answers with how many numbers are written, or with the first refusal.
// The functions in order; how many numbers each has goes to lengths.
fn visit_functions(
    x: &Tables<'_, '_, '_>,
    sheet: &[u64],
    claims: &Claims<'_>,
    dense: &mut [u64],
    sparse: &mut [u64],
    numbers: &mut [u64],
    lengths: &mut [u64],
) -> Result<u64, Refusal>
    ensures { (t v a : List ℕ) → let y = lent t v x.now.o a x.now.b x.now.r x.now.f x.now.l x.now.counts in Tells y claims.now.bases.now claims.now.claims.now → Room y dense.old sparse.old numbers.old lengths.old → Told result (entries_numbered sheet.now y) (sizes y) numbers.new lengths.new numbers.old lengths.old }
{
    let functions = x.functions();
    let mut done = 0;
    for (i, &id) in functions.iter().enumerate() {
        let id = u64::from(id);
        let walked = numbering_walk::visit_function(
            x, sheet, claims, dense, sparse, numbers, done, id,
        )?;
        cells::put(lengths, i as u64, walked.done.saturating_sub(done));
        done = walked.done;
    }
    Ok(done)
}

// The functions over a stack of their own, where 1 to 4 passed, the cells hold the claims and room is lent for every list: a small
// stack is soon cleared.
fn visit_all(
    x: &Tables<'_, '_, '_>,
    sheet: &[u64],
    claims: &Claims<'_>,
    numbers: &mut [u64],
    lengths: &mut [u64],
) -> Result<u64, Refusal>
    ensures { (t v a : List ℕ) → let y = lent t v x.now.o a x.now.b x.now.r x.now.f x.now.l x.now.counts in table_checks y ≡ Ok tt → Filled y claims.now.bases.now claims.now.claims.now → max_entries ≤ length numbers.old → max_functions ≤ length lengths.old → Told result (entries_numbered sheet.now y) (sizes y) numbers.new lengths.new numbers.old lengths.old }
{
    let values = x.counts().values;
    if values <= FEW_VALUES {
        let mut stack = Live::<512>::new(values);
        visit_functions(
            x,
            sheet,
            claims,
            &mut stack.dense,
            &mut stack.sparse,
            numbers,
            lengths,
        )
    } else {
        let mut stack = Live::<4096>::new(values);
        visit_functions(
            x,
            sheet,
            claims,
            &mut stack.dense,
            &mut stack.sparse,
            numbers,
            lengths,
        )
    }
}

// For a caller that has asked 1 to 4, hands on the claims and lends room for every list; a refusal leaves both lists all zero.
pub fn after_checks(
    x: &Tables<'_, '_, '_>,
    sheet: &[u64],
    claims: &Claims<'_>,
    numbers: &mut [u64],
    lengths: &mut [u64],
) -> Result<u64, Refusal>
    ensures { (t v a : List ℕ) → let y = lent t v x.now.o a x.now.b x.now.r x.now.f x.now.l x.now.counts in table_checks y ≡ Ok tt → Filled y claims.now.bases.now claims.now.claims.now → max_entries ≤ length numbers.old → max_functions ≤ length lengths.old → outcome result numbers.new lengths.new ≡ filled_by (numbers_of sheet.now y) (sizes y) numbers.old lengths.old }
{
    let numbered = visit_all(x, sheet, claims, numbers, lengths);
    if numbered.is_err() {
        cells::clear(numbers);
        cells::clear(lengths);
    }
    numbered
}

// The first entries of a list.
fn front(all: &[u64], count: u64) -> &[u64]
    ensures { result.now ≡ take count all.now }
{
    cells::entries(
        all,
        Span {
            start: 0,
            len: count,
        },
    )
}

// The front of both lists goes to the lent ones, where both have room.
pub fn hand_over(
    all: &[u64],
    count: u64,
    each: &[u64],
    functions: u64,
    numbers: &mut [u64],
    lengths: &mut [u64],
) -> Result<u64, Refusal>
    ensures { (zs ns : List ℕ) → zs ≡ take count all.now → length zs ≡ count → ns ≡ take functions each.now → length ns ≡ functions → outcome result numbers.new lengths.new ≡ handed_over zs ns numbers.old lengths.old }
{
    if (numbers.len() as u64) < count {
        return Err(Refusal::TooShort { needed: count });
    }
    if (lengths.len() as u64) < functions {
        return Err(Refusal::TooShort { needed: functions });
    }
    cells::copy(front(all, count), numbers);
    cells::copy(front(each, functions), lengths);
    Ok(count)
}

// The numbers and how many each function has, where both lists have room; a refusal changes neither.
pub fn numbering(
    x: &Tables<'_, '_, '_>,
    sheet: &[u64],
    numbers: &mut [u64],
    lengths: &mut [u64],
) -> Result<u64, Refusal>
    ensures { outcome result numbers.new lengths.new ≡ numbering_alone sheet.now x.now numbers.old lengths.old }
{
    let mut bases = [0; 2048];
    let mut claims = [0; 8192];
    // The walk order is not asked for.
    table_checks::check_with_sheet(x, sheet, &mut [], &mut bases, &mut claims)?;
    let found = Claims {
        bases: &bases,
        claims: &claims,
    };
    let mut all = [0; 8192];
    let mut each = [0; 64];
    let count = after_checks(x, sheet, &found, &mut all, &mut each)?;
    hand_over(&all, count, &each, x.counts().functions, numbers, lengths)
}
