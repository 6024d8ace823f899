// The operation rule of Assume: div_by, same_elements and bounded. The arm answers on any tables.
#![tactic(auto, unfolding(lookups::specs::Verdict::fail_if))]

ghost use Rattle.std.specs.Prelude.{◌≡◌};
ghost use Rattle.rules_assume.specs.Assume.{number_in, is_divisor_wrong, group_rule, div_by_rule, same_elements_rule, is_outside_width, is_reversed, is_bound_wrong, bounded_rule, attribute_rule, is_tensor_view, assume_arm};

use lookups::{Verdict, fail_if};
use tables::Tables;
use tiles::Tile;

// The greatest divisor, 2^62.
const MOST_DIVISOR: u64 = 4611686018427387904;

const TENSOR_VIEW: u64 = 3;

// Number j of an attribute, where it is not absent.
#[tactic(auto, unfolding(crate::specs::Assume::number_in, crate::specs::Assume::has_bit, arith::specs::Bits::has_bit))]
fn number_at(x: &Tables<'_, '_, '_>, attribute: u64, j: u64) -> Option<u64>
    ensures { result ≡ number_in x.now.a x.now.l x.now.counts attribute j }
{
    if arith::has_bit(32, x.attribute_absent(attribute), j) {
        return None;
    }
    Some(cells::at(x.attribute_numbers(attribute), j))
}

// ---- div_by

#[tactic(auto, unfolding(crate::specs::Assume::is_divisor_wrong))]
fn is_divisor_wrong(divisor: u64, every: Option<u64>, along: Option<u64>) -> bool
    ensures { result ≡ is_divisor_wrong divisor every along }
{
    !arith::power_of_two(divisor)
        || MOST_DIVISOR < divisor
        || every.is_none() && along.is_some()
        || every.is_some() && along.is_none()
}

// What is asked of a group size and an axis that are both there.
#[tactic(auto, unfolding(crate::specs::Assume::group_rule, lookups::specs::Verdict::fail_if))]
fn group_rule(value: Tile, every: Option<u64>, along: Option<u64>) -> Verdict
    ensures { result ≡ group_rule value every along }
{
    let (Some(size), Some(axis)) = (every, along) else {
        return Ok(());
    };
    fail_if(!tiles::is_tile(value), 3)?;
    fail_if(tiles::group_outside(value, size, axis), 4)
}

#[tactic(auto, unfolding(crate::specs::Assume::div_by_rule, lookups::specs::Verdict::fail_if))]
fn div_by_rule(
    value: Tile,
    view: bool,
    divisor: u64,
    every: Option<u64>,
    along: Option<u64>,
) -> Verdict
    ensures { result ≡ div_by_rule value view divisor every along }
{
    fail_if(is_divisor_wrong(divisor, every, along), 1)?;
    fail_if(!tiles::is_integers_or_pointers(value) && !view, 2)?;
    group_rule(value, every, along)
}

// ---- same_elements

#[tactic(auto, unfolding(crate::specs::Assume::same_elements_rule, lookups::specs::Verdict::fail_if))]
fn same_elements_rule(value: Tile, sizes: &[u64]) -> Verdict
    ensures { result ≡ same_elements_rule value sizes.now }
{
    fail_if(!tiles::is_integers_or_pointers(value), 5)?;
    fail_if(tiles::groups_outside(value, sizes), 6)
}

// ---- bounded

// An endpoint outside the signed range of so many bits.
#[tactic(auto, unfolding(crate::specs::Assume::is_outside_width))]
fn is_outside_width(bits: u64, endpoint: Option<u64>) -> bool
    ensures { result ≡ is_outside_width bits endpoint }
{
    match endpoint {
        Some(z) => !arith::fits_width(bits, arith::signed(z)),
        None => false,
    }
}

// Two endpoints, the lower above the upper.
#[tactic(auto, unfolding(crate::specs::Assume::is_reversed))]
fn is_reversed(lb: Option<u64>, ub: Option<u64>) -> bool
    ensures { result ≡ is_reversed lb ub }
{
    match (lb, ub) {
        (Some(low), Some(high)) => arith::signed(high) < arith::signed(low),
        _ => false,
    }
}

#[tactic(auto, unfolding(crate::specs::Assume::is_bound_wrong))]
fn is_bound_wrong(bits: u64, lb: Option<u64>, ub: Option<u64>) -> bool
    ensures { result ≡ is_bound_wrong bits lb ub }
{
    is_outside_width(bits, lb) || is_outside_width(bits, ub) || is_reversed(lb, ub)
}

#[tactic(auto, unfolding(crate::specs::Assume::bounded_rule, lookups::specs::Verdict::fail_if))]
fn bounded_rule(sheet: &[u64], value: Tile, lb: Option<u64>, ub: Option<u64>) -> Verdict
    ensures { result ≡ bounded_rule sheet.now value lb ub }
{
    fail_if(!tiles::is_integers(value), 7)?;
    let bits = tiles::bits(sheet, value.kind);
    fail_if(is_bound_wrong(bits, lb, ub), 8)
}

// ---- the arm

// What an attribute asks, by its form.
#[tactic(auto, unfolding(crate::specs::Assume::attribute_rule))]
fn attribute_rule(
    x: &Tables<'_, '_, '_>,
    sheet: &[u64],
    value: Tile,
    view: bool,
    attribute: u64,
) -> Verdict
    ensures { result ≡ attribute_rule x.now.a x.now.l sheet.now x.now.counts value view attribute }
{
    let numbers = x.attribute_numbers(attribute);
    match x.attribute_form(attribute) {
        names::DIVISOR => div_by_rule(
            value,
            view,
            cells::at(numbers, 0),
            number_at(x, attribute, 1),
            number_at(x, attribute, 2),
        ),
        names::SIZES => same_elements_rule(value, numbers),
        names::ENDPOINTS => bounded_rule(
            sheet,
            value,
            number_at(x, attribute, 0),
            number_at(x, attribute, 1),
        ),
        _ => Ok(()),
    }
}

fn is_tensor_view(x: &Tables<'_, '_, '_>, typed: Option<u64>) -> bool
    ensures { result ≡ is_tensor_view x.now.t x.now.counts typed }
{
    matches!(typed, Some(id) if x.type_form(id) == TENSOR_VIEW)
}

// The arm of Assume.
#[tactic(auto, using(crate::proofs::Turns::turn, crate::proofs::Turns::turns_end), unfolding(crate::specs::Assume::assume_in))]
pub fn assume(x: &Tables<'_, '_, '_>, sheet: &[u64], operation: u64) -> Verdict
    ensures { result ≡ assume_arm sheet.now x.now operation }
{
    let value = lookups::operand_tile(x, sheet, operation, 0);
    let view = is_tensor_view(x, lookups::operand_type(x, operation, 0));
    let span = x.attributes(operation);
    for k in span.start..span.start + span.len {
        attribute_rule(x, sheet, value, view, k)?;
    }
    Ok(())
}
