// Code 5: the first operand in walk order that is not visible where it is used.
#![tactic(auto)]

ghost use Rattle.std.specs.Prelude.{◌≡◌, List, [], ℕ, Ok};
ghost use Rattle.tables.specs.Tables.{lent};
ghost use Rattle.table_checks.specs.Checks.{table_checks};
ghost use Rattle.values.specs.Claims.{Filled};
ghost use Rattle.nesting.specs.Shape.{visit};
ghost use Rattle.nesting.specs.Dominance.{judge, judged, dominance as visibleAll};
ghost use Rattle.scope.specs.Stack.{Shows, Holds};
ghost use Rattle.dominance.specs.Alone.{dominance_alone};
ghost use Rattle.dominance.specs.Walk.{Tells, Level, Went, after, region_judged, block_judged, operation_judged, regions_judged, function_judged, whole_judged};

use scope::{Live, Scope};
use tables::{Answer, Refusal, Tables};
use values::Claims;

// As many values as a small stack takes.
const FEW_VALUES: u64 = 512;

// The first of the operation's operands that is not live.
fn judge_operands<const N: usize>(
    stack: &Live<N>,
    next: u64,
    operation: u64,
    operands: &[u64],
) -> Answer
    ensures { (nv : ℕ) (live : List ℕ) → Shows nv stack.now.dense stack.now.sparse next live → result ≡ judge live operation 0 operands.now }
{
    for (k, &v) in operands.iter().enumerate() {
        if !stack.is_live(next, v) {
            return Err(Refusal::NotVisible {
                operation,
                operand: k as u64,
            });
        }
    }
    Ok(())
}

// The values of the operation's declared results, of those that have one.
fn add_results<const N: usize>(
    x: &Tables<'_, '_, '_>,
    claims: &Claims<'_>,
    stack: &mut Live<N>,
    scope: Scope,
    id: u64,
) -> Scope
    ensures depth_value { result.depth ≡ scope.depth }
    ensures shows { (t v a : List ℕ) → let y = lent t v x.now.o a x.now.b x.now.r x.now.f x.now.l x.now.counts in Tells y claims.now.bases.now claims.now.claims.now → (live : List ℕ) → Holds x.now.counts.values stack.old scope.next live → Holds x.now.counts.values stack.new result.next (after y live id) }
{
    let mut s = scope;
    for k in 0..x.result_types(id).len() as u64 {
        if let Some(value) = claims.value_at(id, k) {
            s = stack.add(s, value);
        }
    }
    s
}

// Each visit answers with the scope after it, or the first operand that is not visible.
// Operation id: its operands, then its results.
fn open_operation<const N: usize>(
    x: &Tables<'_, '_, '_>,
    claims: &Claims<'_>,
    stack: &mut Live<N>,
    scope: Scope,
    id: u64,
) -> Result<Scope, Refusal>
    ensures level { Level result scope.depth }
    ensures went { (t v a : List ℕ) → let y = lent t v x.now.o a x.now.b x.now.r x.now.f x.now.l x.now.counts in Tells y claims.now.bases.now claims.now.claims.now → (live : List ℕ) → Holds x.now.counts.values stack.old scope.next live → Went result x.now.counts.values stack.new (after y live id) (judged y (visit id live)) }
{
    judge_operands(stack, scope.next, id, x.operands(id))?;
    Ok(add_results(x, claims, stack, scope, id))
}

// Regions in order.
#[cycle(visit_block_visit_operation_visit_region_visit_regions)]
fn visit_regions<const N: usize>(
    x: &Tables<'_, '_, '_>,
    claims: &Claims<'_>,
    stack: &mut Live<N>,
    scope: Scope,
    regions: &[u64],
) -> Result<Scope, Refusal>
    ensures level { Level result scope.depth }
    ensures went { (t v a : List ℕ) → let y = lent t v x.now.o a x.now.b x.now.r x.now.f x.now.l x.now.counts in Tells y claims.now.bases.now claims.now.claims.now → (live : List ℕ) → Holds x.now.counts.values stack.old scope.next live → Went result x.now.counts.values stack.new live (regions_judged y scope.depth live regions.now) }
{
    let mut s = scope;
    for &region in regions {
        s = visit_region(x, claims, stack, s, region)?;
    }
    Ok(s)
}

// Region id: its blocks in order, where a depth is left for them.
#[cycle(visit_block_visit_operation_visit_region_visit_regions)]
fn visit_region<const N: usize>(
    x: &Tables<'_, '_, '_>,
    claims: &Claims<'_>,
    stack: &mut Live<N>,
    scope: Scope,
    id: u64,
) -> Result<Scope, Refusal>
    ensures level { Level result scope.depth }
    ensures went { (t v a : List ℕ) → let y = lent t v x.now.o a x.now.b x.now.r x.now.f x.now.l x.now.counts in Tells y claims.now.bases.now claims.now.claims.now → (live : List ℕ) → Holds x.now.counts.values stack.old scope.next live → Went result x.now.counts.values stack.new live (region_judged y scope.depth live id) }
{
    if scope.depth == 0 {
        return Ok(scope);
    }
    let mut s = scope.enter();
    for &block in x.blocks(id) {
        s = visit_block(x, claims, stack, s, block)?;
    }
    Ok(s.roll_back(scope))
}

// Block id: its arguments, then its operations in order; what it added is rolled back.
#[cycle(visit_block_visit_operation_visit_region_visit_regions)]
fn visit_block<const N: usize>(
    x: &Tables<'_, '_, '_>,
    claims: &Claims<'_>,
    stack: &mut Live<N>,
    scope: Scope,
    id: u64,
) -> Result<Scope, Refusal>
    ensures level { Level result scope.depth }
    ensures went { (t v a : List ℕ) → let y = lent t v x.now.o a x.now.b x.now.r x.now.f x.now.l x.now.counts in Tells y claims.now.bases.now claims.now.claims.now → (live : List ℕ) → Holds x.now.counts.values stack.old scope.next live → Went result x.now.counts.values stack.new live (block_judged y scope.depth live id) }
{
    let mut inside = stack.add_all(scope, x.arguments(id));
    for &operation in x.operations(id) {
        inside = visit_operation(x, claims, stack, inside, operation)?;
    }
    Ok(inside.roll_back(scope))
}

// Operation id: its operands and its results, then its regions, where the results are live.
#[cycle(visit_block_visit_operation_visit_region_visit_regions)]
fn visit_operation<const N: usize>(
    x: &Tables<'_, '_, '_>,
    claims: &Claims<'_>,
    stack: &mut Live<N>,
    scope: Scope,
    id: u64,
) -> Result<Scope, Refusal>
    ensures level { Level result scope.depth }
    ensures went { (t v a : List ℕ) → let y = lent t v x.now.o a x.now.b x.now.r x.now.f x.now.l x.now.counts in Tells y claims.now.bases.now claims.now.claims.now → (live : List ℕ) → Holds x.now.counts.values stack.old scope.next live → Went result x.now.counts.values stack.new (after y live id) (operation_judged y scope.depth live id) }
{
    let inner = open_operation(x, claims, stack, scope, id)?;
    visit_regions(x, claims, stack, inner, x.regions(id))
}

// A function operation: its regions, where nothing is live yet.
fn visit_function<const N: usize>(
    x: &Tables<'_, '_, '_>,
    claims: &Claims<'_>,
    stack: &mut Live<N>,
    id: u64,
) -> Result<Scope, Refusal>
    ensures { (t v a : List ℕ) → let y = lent t v x.now.o a x.now.b x.now.r x.now.f x.now.l x.now.counts in Tells y claims.now.bases.now claims.now.claims.now → Holds x.now.counts.values stack.old 0 [] → Went result x.now.counts.values stack.new [] (function_judged y id) }
{
    let start = Scope {
        next: 0,
        depth: tables::MAX_DEPTH,
    };
    visit_regions(x, claims, stack, start, x.regions(id))
}

// The functions in order.
fn visit_functions<const N: usize>(
    x: &Tables<'_, '_, '_>,
    claims: &Claims<'_>,
    stack: &mut Live<N>,
) -> Answer
    ensures { (t v a : List ℕ) → let y = lent t v x.now.o a x.now.b x.now.r x.now.f x.now.l x.now.counts in Tells y claims.now.bases.now claims.now.claims.now → Holds x.now.counts.values stack.old 0 [] → result ≡ whole_judged y }
{
    for &id in x.functions() {
        visit_function(x, claims, stack, u64::from(id))?;
    }
    Ok(())
}

// For a caller that has asked 1 to 4 and hands on the claims: a small stack is soon cleared.
pub fn after_checks(x: &Tables<'_, '_, '_>, claims: &Claims<'_>) -> Answer
    ensures { (t v a : List ℕ) → let y = lent t v x.now.o a x.now.b x.now.r x.now.f x.now.l x.now.counts in table_checks y ≡ Ok tt → Filled y claims.now.bases.now claims.now.claims.now → result ≡ visibleAll y }
{
    let values = x.counts().values;
    if values <= FEW_VALUES {
        let mut stack = Live::<512>::new(values);
        visit_functions(x, claims, &mut stack)
    } else {
        let mut stack = Live::<4096>::new(values);
        visit_functions(x, claims, &mut stack)
    }
}

// The first operand that is not visible, after 1 to 4.
pub fn dominance(x: &Tables<'_, '_, '_>) -> Answer
    ensures { result ≡ dominance_alone x.now }
{
    let mut bases = [0; 2048];
    let mut claims = [0; 8192];
    // The walk order is not asked for.
    table_checks::check_tables(x, &mut [], &mut bases, &mut claims)?;
    let found = Claims {
        bases: &bases,
        claims: &claims,
    };
    after_checks(x, &found)
}
