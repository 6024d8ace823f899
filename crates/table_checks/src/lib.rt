// Codes 16, 1, 2, 3 and 4 in turn, and for the parts above the reachable operations in walk order and the values of declared results.
#![tactic(auto)]

ghost use Rattle.std.specs.Prelude.{◌≡◌, Ok};
ghost use Rattle.tables.specs.Answer.{and_then};
ghost use Rattle.ranges.specs.Range.{table_ranges, sheet_range};
ghost use Rattle.walk.specs.Order.{order};
ghost use Rattle.walk.specs.Written.{filled, written};
ghost use Rattle.table_checks.specs.Checks.{is_version, target_check, table_checks, sheet_checks};
ghost use Rattle.table_checks.specs.Checked.{answer_of, Settles, after_cut, Hands, HandsCut};

use tables::{Answer, Refusal, Tables, Target};

#[tactic(auto, unfolding(crate::specs::Checks::is_version))]
fn is_version(minor: u64) -> bool
    ensures { result ≡ is_version minor }
{
    (minor == 2) | (minor == 3) | (minor == 4)
}

// Code 16.
pub fn check_target(g: Target) -> Answer
    ensures { result ≡ target_check g }
{
    if !is_version(g.version) {
        return Err(Refusal::NoTarget);
    }
    match requirements::target_requirement(g.sm) {
        Some(_) => Ok(()),
        None => Err(Refusal::NoTarget),
    }
}

// Codes 2, 3 and 4, with counts cut at the sizes.
fn after_ranges(
    x: &Tables<'_, '_, '_>,
    list: &mut [u64],
    bases: &mut [u64],
    claims: &mut [u64],
) -> Result<u64, Refusal>
    ensures answer { answer_of result ≡ after_cut x.now }
    ensures listed { (m : _) → result ≡ Ok m → filled list.new m ≡ written list.old (order x.now) }
    ensures handed { HandsCut x.now bases.old claims.old bases.new claims.new }
{
    listed::listed_twice(x)?;
    let written = walk::walk_order(x, list)?;
    values::values_claimed(x, bases, claims)?;
    Ok(written)
}

// Code 1 over the tables and the sheet.
fn check_ranges(x: &Tables<'_, '_, '_>, sheet: &[u64]) -> Answer
    ensures { result ≡ and_then (table_ranges x.now) (sheet_range sheet.now) }
{
    ranges::check_tables(x)?;
    ranges::check_sheet(sheet)
}

// The answer of code 1, and where it accepts those of codes 2, 3 and 4. A refusal leaves the list all zero.
fn settle(
    ranged: Answer,
    x: &Tables<'_, '_, '_>,
    list: &mut [u64],
    bases: &mut [u64],
    claims: &mut [u64],
) -> Result<u64, Refusal>
    ensures settled { Settles result list.new list.old (and_then ranged (after_cut x.now)) (order x.now) }
    ensures handed { ranged ≡ Ok tt → HandsCut x.now bases.old claims.old bases.new claims.new }
{
    let checked = match ranged {
        Ok(()) => after_ranges(x, list, bases, claims),
        Err(why) => Err(why),
    };
    if checked.is_err() {
        cells::clear(list);
    }
    checked
}

// Codes 1 to 4 over tables 1 to 7: how many reachable operations stand in the list, or the first refusal. Where nothing is refused the list
// has the walk order, and cells of full length that held zeros the claims: a caller that does not want the one or the other lends an empty
// list for it.
pub fn check_tables(
    x: &Tables<'_, '_, '_>,
    list: &mut [u64],
    bases: &mut [u64],
    claims: &mut [u64],
) -> Result<u64, Refusal>
    ensures { Settles result list.new list.old (table_checks x.now) (order x.now) × Hands (table_checks x.now) x.now bases.old claims.old bases.new claims.new }
{
    settle(ranges::check_tables(x), x, list, bases, claims)
}

// The same with the sheet as table 8.
pub fn check_with_sheet(
    x: &Tables<'_, '_, '_>,
    sheet: &[u64],
    list: &mut [u64],
    bases: &mut [u64],
    claims: &mut [u64],
) -> Result<u64, Refusal>
    ensures { Settles result list.new list.old (sheet_checks sheet.now x.now) (order x.now) × Hands (sheet_checks sheet.now x.now) x.now bases.old claims.old bases.new claims.new }
{
    settle(check_ranges(x, sheet), x, list, bases, claims)
}
