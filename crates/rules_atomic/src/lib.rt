// The rules of the two atomic operations on pointers.
#![tactic(auto, unfolding(lookups::specs::Verdict::fail_if))]

ghost use Rattle.std.specs.Prelude.{◌≡◌, drop};
ghost use Rattle.std.specs.List.{list_any};
ghost use Rattle.tables.specs.Layout.{value_type_in};
ghost use Rattle.tiles.specs.Tile.{tile_in};
ghost use Rattle.tiles.specs.Rules.{is_wrong_mask};
ghost use Rattle.rules_atomic.specs.Arm.{is_swap, is_mode, is_between, is_bad_swap, is_bad_mode, is_bad_order, mask_start, is_bad_mask, atomic_by, atomic_arm};

use lookups::{Verdict, fail_if};
use tables::Tables;
use tiles::Tile;

pub const ATOMIC_CAS: u64 = 7;

pub const ATOMIC_RMW: u64 = 8;

#[tactic(auto, unfolding(crate::specs::Arm::is_swap))]
fn is_swap(x: &Tables<'_, '_, '_>, operation: u64) -> bool
    ensures { result ≡ is_swap x.now.o x.now.counts operation }
{
    x.opcode(operation) == ATOMIC_CAS
}

// There is a mode, and the sheet says that it takes this kind.
#[tactic(auto, unfolding(crate::specs::Arm::is_mode, crate::specs::Arm::takes_kind, arith::specs::Bits::has_bit))]
pub fn is_mode(sheet: &[u64], kind: u64, mode: Option<u64>) -> bool
    ensures { result ≡ is_mode sheet.now kind mode }
{
    mode.is_some_and(|m| arith::has_bit(16, tables::mode_mask(sheet, m), kind))
}

#[tactic(auto, unfolding(crate::specs::Arm::is_between))]
fn is_between(low: u64, high: u64, found: Option<u64>) -> bool
    ensures { result ≡ is_between low high found }
{
    found.is_some_and(|m| low <= m && m <= high)
}

#[tactic(auto, unfolding(crate::specs::Arm::is_bad_swap))]
fn is_bad_swap(x: &Tables<'_, '_, '_>, sheet: &[u64], operation: u64, val: Tile) -> bool
    ensures { result ≡ is_bad_swap x.now.t x.now.v x.now.o x.now.l sheet.now x.now.counts operation val }
{
    if !is_swap(x, operation) {
        return false;
    }
    let other = lookups::operand_tile(x, sheet, operation, 2);
    !tiles::same_tile(other, val) || !tiles::is_word(sheet, val.kind)
}

#[tactic(auto, unfolding(crate::specs::Arm::is_bad_mode))]
fn is_bad_mode(x: &Tables<'_, '_, '_>, sheet: &[u64], operation: u64, val: Tile) -> bool
    ensures { result ≡ is_bad_mode x.now.o x.now.a x.now.l sheet.now x.now.counts operation val }
{
    if is_swap(x, operation) {
        return false;
    }
    !is_mode(sheet, val.kind, lookups::integer(x, operation, names::MODE))
}

#[tactic(auto, unfolding(crate::specs::Arm::is_bad_order))]
fn is_bad_order(x: &Tables<'_, '_, '_>, operation: u64) -> bool
    ensures { result ≡ is_bad_order x.now.o x.now.a x.now.l x.now.counts operation }
{
    let ordering = lookups::integer(x, operation, names::MEMORY_ORDERING_SEMANTICS);
    let scope = lookups::integer(x, operation, names::MEMORY_SCOPE);
    !is_between(1, 4, ordering) || !is_between(0, 2, scope)
}

// The value is a tile that is no mask for this one.
#[tactic(auto, unfolding(tiles::specs::Tile::tile_in))]
fn is_wrong(x: &Tables<'_, '_, '_>, sheet: &[u64], val: Tile, value: u64) -> bool
    ensures { result ≡ is_wrong_mask (tile_in x.now.t sheet.now x.now.counts (value_type_in x.now.v x.now.counts value)) val }
{
    let row = tiles::seen_row(x, sheet, x.value_type(value));
    tiles::is_wrong_mask(tiles::tile_of(row), val)
}

// From the first on, some operand is a tile that is no mask for the value.
fn any_wrong(x: &Tables<'_, '_, '_>, sheet: &[u64], val: Tile, operands: &[u64], first: u64) -> bool
    ensures { result ≡ list_any (λ v. is_wrong_mask (tile_in x.now.t sheet.now x.now.counts (value_type_in x.now.v x.now.counts v)) val) (drop first operands.now) }
{
    let mut masks = operands.iter().skip(first as usize);
    masks.any(|value| is_wrong(x, sheet, val, *value))
}

#[tactic(auto, unfolding(crate::specs::Arm::mask_start))]
fn mask_start(x: &Tables<'_, '_, '_>, operation: u64) -> u64
    ensures { result ≡ mask_start x.now.o x.now.counts operation }
{
    if is_swap(x, operation) { 3 } else { 2 }
}

#[tactic(auto, using(crate::proofs::Masks::wrong_masks), unfolding(crate::specs::Arm::is_bad_mask))]
fn is_bad_mask(x: &Tables<'_, '_, '_>, sheet: &[u64], operation: u64, val: Tile) -> bool
    ensures { result ≡ is_bad_mask x.now.t x.now.v x.now.o x.now.l sheet.now x.now.counts operation val }
{
    any_wrong(
        x,
        sheet,
        val,
        x.operands(operation),
        mask_start(x, operation),
    )
}

// The rule, on the tiles of the pointer, the value and the result.
#[tactic(auto, unfolding(crate::specs::Arm::atomic_by, lookups::specs::Verdict::fail_if))]
fn atomic(
    x: &Tables<'_, '_, '_>,
    sheet: &[u64],
    operation: u64,
    ptr: Tile,
    val: Tile,
    res: Tile,
) -> Verdict
    ensures { result ≡ atomic_by x.now.t x.now.v x.now.o x.now.a x.now.l sheet.now x.now.counts operation ptr val res }
{
    fail_if(!tiles::is_tile(ptr), 1)?;
    fail_if(!tiles::is_tile(val), 2)?;
    fail_if(!tiles::is_number(val), 3)?;
    fail_if(tiles::atomic_differs(ptr, val, res), 4)?;
    fail_if(is_bad_swap(x, sheet, operation, val), 5)?;
    fail_if(is_bad_mode(x, sheet, operation, val), 6)?;
    fail_if(is_bad_order(x, operation), 7)?;
    fail_if(is_bad_mask(x, sheet, operation, val), 8)
}

// The rule of an atomic operation.
#[tactic(auto, unfolding(crate::specs::Arm::atomic_in))]
pub fn atomic_arm(x: &Tables<'_, '_, '_>, sheet: &[u64], operation: u64) -> Verdict
    ensures { result ≡ atomic_arm sheet.now x.now operation }
{
    let ptr = lookups::operand_tile(x, sheet, operation, 0);
    let val = lookups::operand_tile(x, sheet, operation, 1);
    let result = lookups::result_tile(x, sheet, operation);
    atomic(x, sheet, operation, ptr, val, result)
}
