// Codes 8, 6 and 7 along one entry walk: the numbers of its operands, in walk order.
#![tactic(auto)]

ghost use Rattle.std.specs.Prelude.{◌≡◌, List, [], ℕ, ◌≤◌, length};
ghost use Rattle.tables.specs.Sheet.{fixed_count_in};
ghost use Rattle.tables.specs.Tables.{lent, opcode, result_types};
ghost use Rattle.walk.specs.Written.{filled, push};
ghost use Rattle.nesting.specs.Numbering.{counted, values_there};
ghost use Rattle.nesting.specs.Direct.{look_up};
ghost use Rattle.scope.specs.Stack.{Shows};
ghost use Rattle.numbering_walk.specs.Walk.{Tells, Level, Went, judged, asked, after, region_numbered, block_numbered, operation_numbered, regions_numbered, function_numbered};

use scope::Scope;
use tables::{Answer, Refusal, Tables};
use values::Claims;

// Where a walk stands: its scope, and how many numbers are written.
#[derive(Clone, Copy)]
pub struct Walked {
    pub scope: Scope,
    pub done: u64,
}

// The number at the next free place, where there is one; the place after it is the answer.
fn push_number(numbers: &mut [u64], done: u64, number: u64) -> u64
    ensures { filled numbers.new result ≡ push (filled numbers.old done) number }
{
    if done < numbers.len() as u64 {
        cells::put(numbers, done, number);
        return done + 1;
    }
    done
}

// Each visit answers with where the walk stands after it, or with the first refusal.
// The number of each operand of the operation, or the first that has none.
fn look_up(
    dense: &[u64],
    sparse: &[u64],
    numbers: &mut [u64],
    from: Walked,
    operation: u64,
    operands: &[u64],
) -> Result<Walked, Refusal>
    ensures level { Level result from.scope.depth }
    ensures by_index { (nv : ℕ) (live : List ℕ) → Shows nv dense.now sparse.now from.scope.next live → Went result nv dense.now sparse.now live numbers.new (filled numbers.old from.done) (look_up live operation 0 operands.now) }
{
    let next = from.scope.next;
    let mut used = from.done;
    for (k, &v) in operands.iter().enumerate() {
        let Some(number) = scope::position(dense, sparse, next, v) else {
            return Err(Refusal::NoNumber {
                operation,
                operand: k as u64,
            });
        };
        used = push_number(numbers, used, number);
    }
    Ok(Walked {
        scope: from.scope,
        done: used,
    })
}

// The operation's number of results against the sheet's, where the sheet fixes one.
fn check_count(x: &Tables<'_, '_, '_>, sheet: &[u64], id: u64) -> Answer
    ensures { judged result ≡ counted (fixed_count_in sheet.now (opcode x.now id)) id (length (result_types x.now id)) }
{
    let count = x.result_types(id).len() as u64;
    let Some(wanted) = tables::fixed_count(sheet, x.opcode(id)) else {
        return Ok(());
    };
    if wanted != count {
        return Err(Refusal::ResultCount {
            operation: id,
            count,
        });
    }
    Ok(())
}

// The values of the operation's declared results take the next numbers, or the first result that has none.
fn add_results(
    x: &Tables<'_, '_, '_>,
    claims: &Claims<'_>,
    dense: &mut [u64],
    sparse: &mut [u64],
    from: Walked,
    id: u64,
) -> Result<Walked, Refusal>
    ensures level { Level result from.scope.depth }
    ensures went { (t v a b r f held : List ℕ) → let y = lent t v x.now.o a b r f x.now.l x.now.counts in Tells y claims.now.bases.now claims.now.claims.now → (live : List ℕ) → Shows x.now.counts.values dense.old sparse.old from.scope.next live → Went result x.now.counts.values dense.new sparse.new (after y live id) held (filled held from.done) (values_there y id) }
{
    let mut s = from.scope;
    for k in 0..x.result_types(id).len() as u64 {
        let Some(value) = claims.value_at(id, k) else {
            return Err(Refusal::NoValue {
                operation: id,
                result: k,
            });
        };
        s = s.add(dense, sparse, x.counts().values, value);
    }
    Ok(Walked {
        scope: s,
        done: from.done,
    })
}

// Operation id: its operands are looked up, its count is compared, then its results take the next numbers.
fn open_operation(
    x: &Tables<'_, '_, '_>,
    sheet: &[u64],
    claims: &Claims<'_>,
    dense: &mut [u64],
    sparse: &mut [u64],
    numbers: &mut [u64],
    from: Walked,
    id: u64,
) -> Result<Walked, Refusal>
    ensures level { Level result from.scope.depth }
    ensures went { (t v a b r f : List ℕ) → let y = lent t v x.now.o a b r f x.now.l x.now.counts in Tells y claims.now.bases.now claims.now.claims.now → (live : List ℕ) → Shows x.now.counts.values dense.old sparse.old from.scope.next live → Went result x.now.counts.values dense.new sparse.new (after y live id) numbers.new (filled numbers.old from.done) (asked sheet.now y id live) }
{
    let looked = look_up(dense, sparse, numbers, from, id, x.operands(id))?;
    check_count(x, sheet, id)?;
    add_results(x, claims, dense, sparse, looked, id)
}

// Regions in order.
#[cycle(visit_block_visit_operation_visit_region_visit_regions)]
fn visit_regions(
    x: &Tables<'_, '_, '_>,
    sheet: &[u64],
    claims: &Claims<'_>,
    dense: &mut [u64],
    sparse: &mut [u64],
    numbers: &mut [u64],
    from: Walked,
    regions: &[u64],
) -> Result<Walked, Refusal>
    ensures level { Level result from.scope.depth }
    ensures went { (t v a f : List ℕ) → let y = lent t v x.now.o a x.now.b x.now.r f x.now.l x.now.counts in Tells y claims.now.bases.now claims.now.claims.now → (live : List ℕ) → Shows x.now.counts.values dense.old sparse.old from.scope.next live → Went result x.now.counts.values dense.new sparse.new live numbers.new (filled numbers.old from.done) (regions_numbered sheet.now y from.scope.depth live regions.now) }
{
    let mut at = from;
    for &region in regions {
        at = visit_region(x, sheet, claims, dense, sparse, numbers, at, region)?;
    }
    Ok(at)
}

// Region id: its blocks in order, where a depth is left for them.
#[cycle(visit_block_visit_operation_visit_region_visit_regions)]
fn visit_region(
    x: &Tables<'_, '_, '_>,
    sheet: &[u64],
    claims: &Claims<'_>,
    dense: &mut [u64],
    sparse: &mut [u64],
    numbers: &mut [u64],
    from: Walked,
    id: u64,
) -> Result<Walked, Refusal>
    ensures level { Level result from.scope.depth }
    ensures went { (t v a f : List ℕ) → let y = lent t v x.now.o a x.now.b x.now.r f x.now.l x.now.counts in Tells y claims.now.bases.now claims.now.claims.now → (live : List ℕ) → Shows x.now.counts.values dense.old sparse.old from.scope.next live → Went result x.now.counts.values dense.new sparse.new live numbers.new (filled numbers.old from.done) (region_numbered sheet.now y from.scope.depth live id) }
{
    if from.scope.depth == 0 {
        return Ok(from);
    }
    let mut at = Walked {
        scope: from.scope.enter(),
        done: from.done,
    };
    for &block in x.blocks(id) {
        at = visit_block(x, sheet, claims, dense, sparse, numbers, at, block)?;
    }
    Ok(Walked {
        scope: at.scope.roll_back(from.scope),
        done: at.done,
    })
}

// Block id: its arguments take the next numbers, then its operations in order; its numbers are free again after it.
#[cycle(visit_block_visit_operation_visit_region_visit_regions)]
fn visit_block(
    x: &Tables<'_, '_, '_>,
    sheet: &[u64],
    claims: &Claims<'_>,
    dense: &mut [u64],
    sparse: &mut [u64],
    numbers: &mut [u64],
    from: Walked,
    id: u64,
) -> Result<Walked, Refusal>
    ensures level { Level result from.scope.depth }
    ensures went { (t v a f : List ℕ) → let y = lent t v x.now.o a x.now.b x.now.r f x.now.l x.now.counts in Tells y claims.now.bases.now claims.now.claims.now → (live : List ℕ) → Shows x.now.counts.values dense.old sparse.old from.scope.next live → Went result x.now.counts.values dense.new sparse.new live numbers.new (filled numbers.old from.done) (block_numbered sheet.now y from.scope.depth live id) }
{
    let mut inside = Walked {
        scope: from
            .scope
            .add_all(dense, sparse, x.counts().values, x.arguments(id)),
        done: from.done,
    };
    for &operation in x.operations(id) {
        inside = visit_operation(x, sheet, claims, dense, sparse, numbers, inside, operation)?;
    }
    Ok(Walked {
        scope: inside.scope.roll_back(from.scope),
        done: inside.done,
    })
}

// Operation id: its operands, count and results, then its regions, where the results are live.
#[cycle(visit_block_visit_operation_visit_region_visit_regions)]
fn visit_operation(
    x: &Tables<'_, '_, '_>,
    sheet: &[u64],
    claims: &Claims<'_>,
    dense: &mut [u64],
    sparse: &mut [u64],
    numbers: &mut [u64],
    from: Walked,
    id: u64,
) -> Result<Walked, Refusal>
    ensures level { Level result from.scope.depth }
    ensures went { (t v a f : List ℕ) → let y = lent t v x.now.o a x.now.b x.now.r f x.now.l x.now.counts in Tells y claims.now.bases.now claims.now.claims.now → (live : List ℕ) → Shows x.now.counts.values dense.old sparse.old from.scope.next live → Went result x.now.counts.values dense.new sparse.new (after y live id) numbers.new (filled numbers.old from.done) (operation_numbered sheet.now y from.scope.depth live id) }
{
    let inner = open_operation(x, sheet, claims, dense, sparse, numbers, from, id)?;
    visit_regions(
        x,
        sheet,
        claims,
        dense,
        sparse,
        numbers,
        inner,
        x.regions(id),
    )
}

// The entry walk of a function, from number 0: the first block of its first region.
pub fn visit_function(
    x: &Tables<'_, '_, '_>,
    sheet: &[u64],
    claims: &Claims<'_>,
    dense: &mut [u64],
    sparse: &mut [u64],
    numbers: &mut [u64],
    done: u64,
    id: u64,
) -> Result<Walked, Refusal>
    ensures { (t v a f : List ℕ) → let y = lent t v x.now.o a x.now.b x.now.r f x.now.l x.now.counts in Tells y claims.now.bases.now claims.now.claims.now → x.now.counts.values ≤ length dense.old → x.now.counts.values ≤ length sparse.old → Went result x.now.counts.values dense.new sparse.new [] numbers.new (filled numbers.old done) (function_numbered sheet.now y id) }
{
    let start = Walked {
        scope: Scope {
            next: 0,
            depth: tables::MAX_DEPTH - 1,
        },
        done,
    };
    let Some(&region) = x.regions(id).first() else {
        return Ok(start);
    };
    let Some(&block) = x.blocks(region).first() else {
        return Ok(start);
    };
    visit_block(x, sheet, claims, dense, sparse, numbers, start, block)
}
