// Codes 9 and 10 called alone: 16 and 1 to 4 are asked first, then every reachable operation in walk order.
#![tactic(auto)]

ghost use Rattle.std.specs.Prelude.{◌≡◌};
ghost use Rattle.capability_check.specs.Alone.{capabilities_alone};

use cells::Span;
use tables::{Answer, Tables, Target};

pub fn check_alone(g: Target, x: &Tables<'_, '_, '_>) -> Answer
    ensures { result ≡ capabilities_alone g x.now }
{
    table_checks::check_target(g)?;
    let mut list = [0u64; 2048];
    // The claims are not asked for.
    let count = table_checks::check_tables(x, &mut list, &mut [], &mut [])?;
    let order = cells::entries(
        &list,
        Span {
            start: 0,
            len: count,
        },
    );
    capabilities::check_capabilities(g, x, order)
}
