// The check that runs all, over tables: the table checks once, then each part in turn, and the number list written on acceptance only.
#![tactic(auto)]

ghost use Rattle.std.specs.Prelude.{◌≡◌, Ok};
ghost use Rattle.tables.specs.Answer.{and_then};
ghost use Rattle.values.specs.Claims.{Filled};
ghost use Rattle.table_checks.specs.Checks.{table_checks};
ghost use Rattle.walk.specs.Order.{order as order_of};
ghost use Rattle.nesting.specs.Numbering.{numbering as numbers_of};
ghost use Rattle.numbering.specs.Alone.{outcome, sizes, handed, after_checks};
ghost use Rattle.capabilities.specs.Ask.{capabilities};
ghost use Rattle.rules.specs.Operation.{rules};
ghost use Rattle.full_check.specs.Full.{parts, full_check};

use cells::Span;
use tables::{Answer, Refusal, Tables, Target};
use values::Claims;

// Version and architecture of every operation, then the rules of every operation.
fn over_operations(g: Target, x: &Tables<'_, '_, '_>, sheet: &[u64], order: &[u64]) -> Answer
    ensures { result ≡ and_then (capabilities g x.now order.now) (rules g.version sheet.now x.now order.now) }
{
    capabilities::check_capabilities(g, x, order)?;
    rules::check_rules(g.version, x, sheet, order)
}

// The parts, for a caller that has asked 16 and 1 to 4 and hands on the walk order and the claims.
fn after_checks(
    g: Target,
    x: &Tables<'_, '_, '_>,
    sheet: &[u64],
    order: &[u64],
    claims: &Claims<'_>,
    numbers: &mut [u64],
    lengths: &mut [u64],
) -> Result<u64, Refusal>
    ensures { table_checks x.now ≡ Ok tt → order.now ≡ order_of x.now → Filled x.now claims.now.bases.now claims.now.claims.now → outcome result numbers.new lengths.new ≡ after_checks (parts g sheet.now x.now) (handed (numbers_of sheet.now x.now) (sizes x.now) numbers.old lengths.old) numbers.old lengths.old }
{
    dominance::after_checks(x, claims)?;
    let mut all = [0u64; 8192];
    let mut each = [0u64; 64];
    let count = numbering::after_checks(x, sheet, claims, &mut all, &mut each)?;
    over_operations(g, x, sheet, order)?;
    numbering::hand_over(&all, count, &each, x.counts().functions, numbers, lengths)
}

// The full check: the first refusal, which changes no lent byte, or how many numbers are written, with how many each function has.
pub fn check(
    g: Target,
    x: &Tables<'_, '_, '_>,
    sheet: &[u64],
    numbers: &mut [u64],
    lengths: &mut [u64],
) -> Result<u64, Refusal>
    ensures { outcome result numbers.new lengths.new ≡ full_check g sheet.now x.now numbers.old lengths.old }
{
    table_checks::check_target(g)?;
    let mut list = [0u64; 2048];
    let mut bases = [0u64; 2048];
    let mut claims = [0u64; 8192];
    let count = table_checks::check_with_sheet(x, sheet, &mut list, &mut bases, &mut claims)?;
    let order = cells::entries(
        &list,
        Span {
            start: 0,
            len: count,
        },
    );
    let found = Claims {
        bases: &bases,
        claims: &claims,
    };
    after_checks(g, x, sheet, order, &found, numbers, lengths)
}
