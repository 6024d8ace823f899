// The rules of the six shape operations.
#![tactic(auto, unfolding(lookups::specs::Verdict::fail_if, lookups::specs::Verdict::leave_if))]

ghost use Rattle.std.specs.Prelude.{◌≡◌};
ghost use Rattle.rules_shape.specs.Arm.{moved_by, is_packing, pack_leaves, valid_in, shaped_in, shape_arm};

use lookups::{Verdict, fail_if, leave_if};
use tables::Tables;
use tiles::Tile;

pub const BITCAST: u64 = 9;

pub const BROADCAST: u64 = 11;

pub const PERMUTE: u64 = 65;

pub const RESHAPE: u64 = 73;

pub const PACK: u64 = 93;

pub const UNPACK: u64 = 94;

// There is a permutation, and it moves the source's dims to the result's.
fn is_moved(x: &Tables<'_, '_, '_>, src: Tile, dst: Tile, permutation: Option<u64>) -> bool
    ensures { result ≡ moved_by x.now.a x.now.l x.now.counts src dst permutation }
{
    match permutation {
        Some(k) => tiles::is_permuted(src, dst, x.attribute_numbers(k)),
        None => false,
    }
}

#[tactic(auto, unfolding(crate::specs::Arm::is_packing))]
fn is_packing(code: u64) -> bool
    ensures { result ≡ is_packing code }
{
    matches!(code, PACK | UNPACK)
}

// The test of a pack's bits is reached, and one of its products is no i64. Products are taken where they are asked alone.
#[tactic(auto, unfolding(crate::specs::Arm::pack_leaves))]
fn pack_leaves(sheet: &[u64], code: u64, src: Tile, dst: Tile) -> bool
    ensures { result ≡ pack_leaves sheet.now code src dst }
{
    if !is_packing(code) || !tiles::is_packable(sheet, src, dst) {
        return false;
    }
    tiles::bit_count(sheet, src).is_none() || tiles::bit_count(sheet, dst).is_none()
}

// What the operation asks of its source and its result.
#[tactic(auto, unfolding(crate::specs::Arm::valid_in))]
fn is_valid(x: &Tables<'_, '_, '_>, sheet: &[u64], operation: u64, src: Tile, dst: Tile) -> bool
    ensures { result ≡ valid_in x.now.o x.now.a x.now.l sheet.now x.now.counts operation src dst }
{
    match x.opcode(operation) {
        BITCAST => tiles::is_bitcast(sheet, src, dst),
        RESHAPE => tiles::is_reshape(src, dst),
        BROADCAST => tiles::is_broadcast(src, dst),
        PERMUTE => is_moved(x, src, dst, lookups::permutation(x, operation)),
        code => is_packing(code)
            && tiles::is_packable(sheet, src, dst)
            && tiles::is_packed(sheet, src, dst),
    }
}

// The rule, on the source and the result.
#[tactic(auto, unfolding(crate::specs::Arm::shaped_in, lookups::specs::Verdict::fail_if, lookups::specs::Verdict::leave_if))]
fn shaped(x: &Tables<'_, '_, '_>, sheet: &[u64], operation: u64, src: Tile, dst: Tile) -> Verdict
    ensures { result ≡ shaped_in x.now.o x.now.a x.now.l sheet.now x.now.counts operation src dst }
{
    fail_if(!tiles::is_tile(src), 1)?;
    fail_if(!tiles::is_tile(dst), 2)?;
    leave_if(tiles::count(src).is_none())?;
    leave_if(tiles::count(dst).is_none())?;
    leave_if(pack_leaves(sheet, x.opcode(operation), src, dst))?;
    fail_if(!is_valid(x, sheet, operation, src, dst), 3)
}

// The rule of a shape operation.
#[tactic(auto, unfolding(crate::specs::Arm::shape_in))]
pub fn shape_arm(x: &Tables<'_, '_, '_>, sheet: &[u64], operation: u64) -> Verdict
    ensures { result ≡ shape_arm sheet.now x.now operation }
{
    let src = lookups::operand_tile(x, sheet, operation, 0);
    let dst = lookups::result_tile(x, sheet, operation);
    shaped(x, sheet, operation, src, dst)
}
