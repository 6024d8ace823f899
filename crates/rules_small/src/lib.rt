// The operation rules of a few tests each: conversions, sums and exponentials, views and memory, powers, tokens, and flush_to_zero.
#![tactic(auto, unfolding(lookups::specs::Verdict::fail_if))]

ghost use Rattle.std.specs.Prelude.{◌≡◌};
ghost use Rattle.rules_small.specs.Rounding.{is_contained, is_rounding, f_to_i, add_f, exp, f_to_f, flushed};
ghost use Rattle.rules_small.specs.Memory.{pointer_by, make_view, is_negative, is_misaligned, alloca};
ghost use Rattle.rules_small.specs.Power.{f_pow_i};
ghost use Rattle.rules_small.specs.Token.{is_token, is_one_token, is_signature, tokens};

use lookups::{Fault, Verdict, fail_if};
use tables::Tables;

// The number of MemoryFenceAliasTko.
const MEMORY_FENCE_ALIAS_TKO: u64 = 104;

// FToI: rounding to the nearest integer towards zero.
#[tactic(auto, unfolding(crate::specs::Rounding::f_to_i, lookups::specs::Verdict::fail_if))]
pub fn f_to_i(x: &Tables<'_, '_, '_>, operation: u64) -> Verdict
    ensures { result ≡ f_to_i x.now operation }
{
    let rounding = lookups::integer(x, operation, names::ROUNDING_MODE);
    fail_if(rounding != Some(6), 1)
}

// AddF, SubF, MulF and Fma: rounding to the nearest, up, down or towards zero.
#[tactic(auto, unfolding(crate::specs::Rounding::add_f, lookups::specs::Verdict::fail_if))]
pub fn add_f(x: &Tables<'_, '_, '_>, operation: u64) -> Verdict
    ensures { result ≡ add_f x.now operation }
{
    let rounding = lookups::integer(x, operation, names::ROUNDING_MODE);
    fail_if(!matches!(rounding, Some(0..=3)), 1)
}

// Exp and TanH: approximate rounding is for F32 alone.
#[tactic(auto, unfolding(crate::specs::Rounding::exp, lookups::specs::Verdict::fail_if))]
pub fn exp(x: &Tables<'_, '_, '_>, sheet: &[u64], operation: u64) -> Verdict
    ensures { result ≡ exp sheet.now x.now operation }
{
    let rounding = lookups::integer(x, operation, names::ROUNDING_MODE).unwrap_or(5);
    fail_if(!matches!(rounding, 4 | 5), 1)?;
    fail_if(
        rounding == 4 && !lookups::operand_has_kind(x, sheet, operation, 0, tiles::F32),
        2,
    )
}

// The pointer attribute of a type, 0 where there is none.
fn pointer_by(x: &Tables<'_, '_, '_>, typed: Option<u64>) -> u64
    ensures { result ≡ pointer_by x.now.t x.now.counts typed }
{
    match typed {
        Some(id) => x.type_pointer(id),
        None => 0,
    }
}

// MakePartitionView, MakeTensorView, MakeGatherScatterView and MakeStridedView: the pointer attribute is kept.
#[tactic(auto, unfolding(crate::specs::Memory::make_view, lookups::specs::Verdict::fail_if))]
pub fn make_view(x: &Tables<'_, '_, '_>, operation: u64) -> Verdict
    ensures { result ≡ make_view x.now operation }
{
    let source = pointer_by(x, lookups::operand_type(x, operation, 0));
    let result = pointer_by(x, lookups::result_type(x, operation));
    fail_if(source != result, 1)
}

// The bits of a number below 0.
#[tactic(auto, unfolding(crate::specs::Memory::is_negative))]
fn is_negative(bits: u64) -> bool
    ensures { result ≡ is_negative bits }
{
    arith::signed(bits) < 0
}

// The bits of an alignment that is not above 0, no power of two or below the element's own size.
#[tactic(auto, using(crate::proofs::Signs::misaligned_by))]
fn is_misaligned(bits: u64, natural: u64) -> bool
    ensures { result ≡ is_misaligned bits natural }
{
    (bits == 0) | is_negative(bits) | !arith::power_of_two(bits) | (bits < natural)
}

// Alloca: so many elements, aligned.
#[tactic(auto, using(lookups::proofs::Rows::row_tile_by), unfolding(crate::specs::Memory::alloca, lookups::specs::Verdict::fail_if, lookups::specs::Typed::result_tile_in))]
pub fn alloca(x: &Tables<'_, '_, '_>, sheet: &[u64], operation: u64) -> Verdict
    ensures { result ≡ alloca sheet.now x.now operation }
{
    let count = lookups::integer(x, operation, names::NUM_ELEM).ok_or(Fault::Broken(1))?;
    let typed = lookups::result_type(x, operation);
    let result = tiles::tile_of(lookups::row_by(x, sheet, typed));
    fail_if(!tiles::is_pointer(result), 2)?;
    fail_if(is_negative(count), 3)?;
    let alignment = lookups::integer(x, operation, names::ALIGNMENT).unwrap_or(0);
    let natural = tables::byte_width(sheet, result.kind);
    fail_if(is_misaligned(alignment, natural), 4)
}

// FPowI: a float to the power of an integer of its shape.
#[tactic(auto, unfolding(crate::specs::Power::f_pow_i, lookups::specs::Verdict::fail_if))]
pub fn f_pow_i(x: &Tables<'_, '_, '_>, sheet: &[u64], operation: u64) -> Verdict
    ensures { result ≡ f_pow_i sheet.now x.now operation }
{
    let base = lookups::operand_tile(x, sheet, operation, 0);
    fail_if(!tiles::is_tile(base), 1)?;
    let exponent = lookups::operand_tile(x, sheet, operation, 1);
    fail_if(!tiles::is_tile(exponent), 2)?;
    let result = lookups::result_tile(x, sheet, operation);
    fail_if(
        !tiles::is_power_base(base) || !tiles::same_tile(result, base),
        3,
    )?;
    fail_if(
        !tiles::same_shape(base, exponent) || !tiles::is_power_exponent(exponent),
        4,
    )
}

#[tactic(auto, unfolding(crate::specs::Token::is_token))]
fn is_token(x: &Tables<'_, '_, '_>, id: u64) -> bool
    ensures { result ≡ is_token x.now.t x.now.counts id }
{
    x.type_form(id) == 0
}

// The types are one token.
#[tactic(auto, unfolding(crate::specs::Token::is_one_token))]
fn is_one_token(x: &Tables<'_, '_, '_>, types: &[u64]) -> bool
    ensures { result ≡ is_one_token x.now.t x.now.counts types.now }
{
    match types {
        [id] => is_token(x, *id),
        _ => false,
    }
}

// The results are one token, and the operands none or one; the fence takes one. Of two operands it is not asked what they are.
#[tactic(auto, unfolding(crate::specs::Token::is_signature, crate::specs::Token::some_typed))]
fn is_signature(x: &Tables<'_, '_, '_>, opcode: u64, types: &[u64], operands: &[u64]) -> bool
    ensures { result ≡ is_signature x.now.t x.now.v x.now.counts opcode types.now operands.now }
{
    if !is_one_token(x, types) {
        return false;
    }
    match operands {
        [] => opcode != MEMORY_FENCE_ALIAS_TKO,
        [value] => is_token(x, x.value_type(*value)),
        _ => false,
    }
}

// GdcLaunchDependentsTko, GdcWaitTko and MemoryFenceAliasTko: tokens in and out.
#[tactic(auto, unfolding(crate::specs::Token::tokens, lookups::specs::Verdict::fail_if))]
pub fn tokens(x: &Tables<'_, '_, '_>, operation: u64) -> Verdict
    ensures { result ≡ tokens x.now operation }
{
    let types = x.result_types(operation);
    let operands = x.operands(operation);
    fail_if(!is_signature(x, x.opcode(operation), types, operands), 1)
}

// The sheet says that a destination kind contains this source kind.
#[tactic(auto, unfolding(crate::specs::Rounding::is_contained, arith::specs::Bits::has_bit))]
fn is_contained(sheet: &[u64], dst: u64, src: u64) -> bool
    ensures { result ≡ is_contained sheet.now dst src }
{
    arith::has_bit(16, tables::contained_mask(sheet, dst), src)
}

// The roundings that a conversion takes.
#[tactic(auto, unfolding(crate::specs::Rounding::is_rounding))]
fn is_rounding(sheet: &[u64], version: u64, src: u64, dst: u64, rounding: u64) -> bool
    ensures { result ≡ is_rounding version sheet.now src dst rounding }
{
    if dst == tiles::F8E8M0FNU {
        return rounding == 1 || rounding == 3;
    }
    if version < 4 || tables::byte_width(sheet, dst) < 2 {
        return rounding == 0;
    }
    if is_contained(sheet, dst, src) {
        return rounding <= 3 || rounding == 7;
    }
    if src == tiles::F64 && dst == tiles::F32 {
        return rounding <= 3;
    }
    if src == tiles::F32 && dst == tiles::TF32 {
        return rounding == 0 || rounding == 1 || rounding == 7;
    }
    rounding == 0 || rounding == 1
}

// FToF: between two float kinds, by a rounding that they take.
#[tactic(auto, using(lookups::proofs::Rows::row_tile_by), unfolding(crate::specs::Rounding::f_to_f, lookups::specs::Verdict::fail_if, lookups::specs::Typed::operand_tile_in, lookups::specs::Typed::result_tile_in))]
pub fn f_to_f(version: u64, x: &Tables<'_, '_, '_>, sheet: &[u64], operation: u64) -> Verdict
    ensures { result ≡ f_to_f version sheet.now x.now operation }
{
    let taken = lookups::operand_type(x, operation, 0);
    let src = tiles::tile_of(lookups::row_by(x, sheet, taken));
    fail_if(!tiles::is_number(src), 1)?;
    let given = lookups::result_type(x, operation);
    let dst = tiles::tile_of(lookups::row_by(x, sheet, given));
    fail_if(!tiles::is_number(dst), 2)?;
    fail_if(tiles::is_integer(src.kind), 3)?;
    fail_if(tiles::is_integer(dst.kind), 4)?;
    fail_if(src.kind == dst.kind, 5)?;
    let rounding = lookups::integer(x, operation, names::ROUNDING_MODE);
    let rounded = matches!(rounding, Some(r) if is_rounding(sheet, version, src.kind, dst.kind, r));
    fail_if(!rounded, 6)
}

// The closing rule of every operation: flush_to_zero is for F32 alone.
#[tactic(auto, unfolding(crate::specs::Rounding::flushed, lookups::specs::Verdict::fail_if))]
pub fn flushed(x: &Tables<'_, '_, '_>, sheet: &[u64], operation: u64) -> Verdict
    ensures { result ≡ flushed sheet.now x.now operation }
{
    fail_if(
        lookups::flushes(x, operation)
            && !lookups::operand_has_kind(x, sheet, operation, 0, tiles::F32),
        99,
    )
}
