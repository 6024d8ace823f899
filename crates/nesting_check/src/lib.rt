// What reading back asks of the tables first: codes 1, 2 and 3 of the nesting, and nothing of types, values and attributes.
#![tactic(auto)]

ghost use Rattle.std.specs.Prelude.{◌≡◌, ℕ, Bool, ◌-◌, ◌^◌, ◌<◌, min, ltb, get_or};
ghost use Rattle.tables.specs.Sizes.{max_functions, function_table};
ghost use Rattle.tables.specs.Tables.{functions};
ghost use Rattle.ranges.specs.Range.{first_bad};
ghost use Rattle.ranges.specs.Part.{scan_of};
ghost use Rattle.nesting_check.specs.Checks.{nested_operation, nested_block, nesting_ranges, nesting_checks};

use ranges::Pass;
use tables::{Answer, Refusal, Tables};

// What there is to nest of an operation, its regions, and of a block, its operations.
#[tactic(auto, unfolding(crate::specs::Checks::nested_operation, tables::specs::Layout::regions_in))]
fn nested_operation(x: &Tables<'_, '_, '_>, id: u64) -> bool
    ensures { result ≡ nested_operation x.now id }
{
    ranges::good_list(x, x.regions_span(id), x.counts().regions)
}

#[tactic(auto, unfolding(crate::specs::Checks::nested_block, tables::specs::Layout::operations_in))]
fn nested_block(x: &Tables<'_, '_, '_>, id: u64) -> bool
    ensures { result ≡ nested_block x.now id }
{
    ranges::good_list(x, x.operations_span(id), x.counts().operations)
}

// Of a table that holds lists, by what each entry's lists add to those before: the list entries up to its end, or its first entry that
// does not stand, is not good or has no room.
fn scan<F: Fn(u64) -> bool, L: Fn(u64) -> u64>(
    table: Pass,
    before: u64,
    good: F,
    listed: L,
) -> Result<u64, Refusal>
    requires tests { F.IsAlwaysCallable good }
    requires counts { L.IsAlwaysCallable listed }
    ensures { (p : ℕ → Bool) (f : ℕ → ℕ) → ((i : ℕ) (r : Bool) → i < table.count → F.post good i r → r ≡ p i) → ((i r : ℕ) → i < table.count → L.post listed i r → r ≡ min (f i) (2 ^ 64 - 1)) → result ≡ scan_of table p f before }
{
    let mut used = before;
    for entry in 0..table.count {
        used = ranges::add_list(used, listed(entry));
        if !(table.stands(entry) & (good(entry) & (used <= tables::MAX_ENTRIES))) {
            return Err(Refusal::OutOfRange {
                table: table.table,
                entry,
            });
        }
    }
    Ok(used)
}

// The first function that does not stand or is no operation that there is.
fn check_functions(x: &Tables<'_, '_, '_>) -> Answer
    ensures { result ≡ first_bad function_table max_functions 1 x.now.f x.now.counts.functions (λ p. ltb (get_or (functions x.now) p 0) x.now.counts.operations) }
{
    let table = Pass::functions(x);
    for entry in 0..table.count {
        if !(table.stands(entry) & (x.function(entry) < x.counts().operations)) {
            return Err(Refusal::OutOfRange {
                table: table.table,
                entry,
            });
        }
    }
    Ok(())
}

// Code 1 for operations, blocks, regions and functions.
fn check_ranges(x: &Tables<'_, '_, '_>) -> Answer
    ensures { result ≡ nesting_ranges x.now }
{
    let used = scan(
        Pass::operations(x),
        0,
        |i| nested_operation(x, i),
        |i| ranges::listed_by_operation(x, i),
    )?;
    let used = scan(
        Pass::blocks(x),
        used,
        |i| nested_block(x, i),
        |i| ranges::listed_by_block(x, i),
    )?;
    scan(
        Pass::regions(x),
        used,
        |i| ranges::good_region(x, i),
        |i| ranges::listed_by_region(x, i),
    )?;
    check_functions(x)
}

// Codes 1, 2 and 3 of the nesting.
#[tactic(auto, using(crate::proofs::Turns::listed_same), unfolding(crate::specs::Checks::nesting_checks))]
pub fn check_nesting(x: &Tables<'_, '_, '_>) -> Answer
    ensures { result ≡ nesting_checks x.now }
{
    check_ranges(x)?;
    listed::listed_twice(x)?;
    let mut order = [0u64; 1];
    walk::walk_order(x, &mut order)?;
    Ok(())
}
