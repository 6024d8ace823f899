// Codes 11 and 12 called alone: 16 and 1 to 4 are asked first, then the rules of every reachable operation in walk order.
#![tactic(auto)]

ghost use Rattle.std.specs.Prelude.{◌≡◌, List, ℕ, take};
ghost use Rattle.tables.specs.Tables.{lent};
ghost use Rattle.rules.specs.Operation.{rules};
ghost use Rattle.rule_check.specs.Alone.{rules_alone};

use cells::Span;
use tables::{Answer, Tables, Target};

// For a caller that has asked 16 and 1 to 4: the walk order is the first so many entries of the list.
pub fn after_checks(
    g: Target,
    x: &Tables<'_, '_, '_>,
    sheet: &[u64],
    list: &[u64],
    count: u64,
) -> Answer
    ensures { (b r f : List ℕ) → result ≡ rules g.version sheet.now (lent x.now.t x.now.v x.now.o x.now.a b r f x.now.l x.now.counts) (take count list.now) }
{
    let order = cells::entries(
        list,
        Span {
            start: 0,
            len: count,
        },
    );
    rules::check_rules(g.version, x, sheet, order)
}

// The claims are not asked for.
#[tactic(auto, unfolding(crate::specs::Alone::rules_alone))]
pub fn check_alone(g: Target, x: &Tables<'_, '_, '_>, sheet: &[u64]) -> Answer
    ensures { result ≡ rules_alone g sheet.now x.now }
{
    table_checks::check_target(g)?;
    let mut list = [0u64; 2048];
    let count = table_checks::check_with_sheet(x, sheet, &mut list, &mut [], &mut [])?;
    after_checks(g, x, sheet, &list, count)
}
