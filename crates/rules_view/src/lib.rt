// The operation rule of LoadViewTko, StoreViewTko and AtomicRedViewTko. The arm answers on any tables.
#![tactic(auto, unfolding(lookups::specs::Verdict::fail_if))]

ghost use Rattle.std.specs.Prelude.{◌≡◌, ◌≤◌};
ghost use Rattle.rules_view.specs.View.{view_place, index_start, segment_place, is_other_tile, is_no_reduction, is_mode_wrong, is_count_wrong, is_order_wrong, is_other_kind, index_rule, element_after, is_sparse_axis, value_in, indices_rule, view_by, view_rule, view_arm};

use lookups::{Fault, Verdict, fail_if};
use tables::Tables;
use tiles::Tile;

const LOAD_VIEW: u64 = 44;

const STORE_VIEW: u64 = 84;

const ATOMIC_RED_VIEW: u64 = 99;

// A view whose one axis may be sparse.
const GATHER_SCATTER: u64 = 6;

const EXCHANGE: u64 = 9;

// ---- where things stand, by the opcode

#[tactic(auto, unfolding(crate::specs::View::view_place))]
fn view_place(opcode: u64) -> u64
    ensures { result ≡ view_place opcode }
{
    if opcode == STORE_VIEW { 1 } else { 0 }
}

#[tactic(auto, unfolding(crate::specs::View::index_start))]
fn index_start(opcode: u64) -> u64
    ensures place { result ≡ index_start opcode }
    ensures small { result ≤ 2 }
{
    if opcode == STORE_VIEW { 2 } else { 1 }
}

#[tactic(auto, unfolding(crate::specs::View::segment_place))]
fn segment_place(opcode: u64) -> u64
    ensures { result ≡ segment_place opcode }
{
    match opcode {
        LOAD_VIEW | ATOMIC_RED_VIEW => 1,
        _ => 2,
    }
}

// ---- the tests

#[tactic(auto, unfolding(crate::specs::View::is_other_tile))]
fn is_other_tile(value: Tile, view: Tile) -> bool
    ensures { result ≡ is_other_tile value view }
{
    !tiles::same_shape(value, view) || !tiles::has_kind(value, view.kind)
}

#[tactic(auto, unfolding(crate::specs::View::is_no_reduction))]
fn is_no_reduction(x: &Tables<'_, '_, '_>, operation: u64, opcode: u64, id: u64) -> bool
    ensures { result ≡ is_no_reduction x.now.t x.now.o x.now.a x.now.l x.now.counts operation opcode id }
{
    opcode == ATOMIC_RED_VIEW
        && (x.type_form(id) == GATHER_SCATTER
            || x.type_padded(id) != 0
            || lookups::integer(x, operation, names::MODE) == Some(EXCHANGE))
}

// No mode, or one whose mask of the sheet has not this kind.
#[tactic(auto, unfolding(crate::specs::View::is_mode_wrong, crate::specs::View::takes_kind, arith::specs::Bits::has_bit))]
fn is_mode_wrong(
    x: &Tables<'_, '_, '_>,
    sheet: &[u64],
    operation: u64,
    opcode: u64,
    kind: u64,
) -> bool
    ensures { result ≡ is_mode_wrong x.now.o x.now.a x.now.l sheet.now x.now.counts operation opcode kind }
{
    if opcode != ATOMIC_RED_VIEW {
        return false;
    }
    match lookups::integer(x, operation, names::MODE) {
        Some(m) => !arith::has_bit(16, tables::mode_mask(sheet, m), kind),
        None => true,
    }
}

#[tactic(auto, unfolding(crate::specs::View::is_count_wrong))]
fn is_count_wrong(x: &Tables<'_, '_, '_>, operation: u64, opcode: u64, view: Tile) -> bool
    ensures { result ≡ is_count_wrong x.now.o x.now.a x.now.l x.now.counts operation opcode view }
{
    lookups::segment(x, operation, segment_place(opcode)) != Some(tiles::rank(view))
}

#[tactic(auto, unfolding(crate::specs::View::is_order_wrong))]
fn is_order_wrong(x: &Tables<'_, '_, '_>, operation: u64, opcode: u64) -> bool
    ensures { result ≡ is_order_wrong x.now.o x.now.a x.now.l x.now.counts operation opcode }
{
    let order = lookups::integer(x, operation, names::MEMORY_ORDERING_SEMANTICS).unwrap_or(0);
    let scope = lookups::integer(x, operation, names::MEMORY_SCOPE);
    let wrong = match opcode {
        LOAD_VIEW => 2 < order,
        ATOMIC_RED_VIEW => order != 1 || !matches!(scope, Some(0..=1)),
        _ => !matches!(order, 0 | 1 | 3),
    };
    let unscoped = if order == 0 {
        scope.is_some()
    } else {
        !matches!(scope, Some(0..=2))
    };
    wrong || unscoped
}

// ---- the indices

// A kind that was seen before, and is another.
#[tactic(auto, unfolding(crate::specs::View::is_other_kind))]
fn is_other_kind(element: Option<u64>, kind: u64) -> bool
    ensures { result ≡ is_other_kind element kind }
{
    element.is_some_and(|k| k != kind)
}

// What the index of an axis has to be.
#[tactic(auto, unfolding(crate::specs::View::index_rule, lookups::specs::Verdict::fail_if))]
fn index_rule(index: Tile, view: Tile, axis: u64, sparse: bool, element: Option<u64>) -> Verdict
    ensures { result ≡ index_rule index view axis sparse element }
{
    fail_if(!tiles::is_tile(index), 8)?;
    fail_if(!tiles::is_integers(index), 9)?;
    if sparse {
        return fail_if(!tiles::is_axis_index(index, view, axis), 10);
    }
    fail_if(tiles::rank(index) != 0, 11)?;
    fail_if(is_other_kind(element, index.kind), 12)
}

// The kind of the dense indices, once this one is seen.
#[tactic(auto, unfolding(crate::specs::View::element_after))]
fn element_after(index: Tile, sparse: bool, element: Option<u64>) -> Option<u64>
    ensures { result ≡ element_after index sparse element }
{
    if sparse { element } else { Some(index.kind) }
}

#[tactic(auto, unfolding(crate::specs::View::is_sparse_axis))]
fn is_sparse_axis(x: &Tables<'_, '_, '_>, id: u64, axis: u64) -> bool
    ensures { result ≡ is_sparse_axis x.now.t x.now.counts id axis }
{
    x.type_form(id) == GATHER_SCATTER && x.type_sparse(id) == axis
}

// ---- the arm

// The tile that is loaded, reduced into the view, or stored.
#[tactic(auto, using(tiles::proofs::Dims::rank_is), unfolding(crate::specs::View::value_in))]
fn value_tile(
    x: &Tables<'_, '_, '_>,
    sheet: &[u64],
    operation: u64,
    opcode: u64,
    view: Tile,
) -> Tile
    ensures { result ≡ value_in x.now.t x.now.v x.now.o x.now.l sheet.now x.now.counts operation opcode view }
{
    match opcode {
        LOAD_VIEW => lookups::result_tile(x, sheet, operation),
        ATOMIC_RED_VIEW => lookups::operand_tile(x, sheet, operation, 1 + tiles::rank(view)),
        _ => lookups::operand_tile(x, sheet, operation, 0),
    }
}

// What the indices have to be, axis after axis.
#[tactic(auto, using(tiles::proofs::Dims::rank_is, crate::proofs::Indices::turn, crate::proofs::Indices::turns_end, lookups::proofs::Rows::row_tile_by), unfolding(crate::specs::View::indices_rule, lookups::specs::Typed::operand_tile_in))]
fn indices_rule(
    x: &Tables<'_, '_, '_>,
    sheet: &[u64],
    operation: u64,
    opcode: u64,
    id: u64,
    view: Tile,
) -> Verdict
    ensures { result ≡ indices_rule x.now.t x.now.v x.now.o x.now.l sheet.now x.now.counts operation opcode id view }
{
    let start = index_start(opcode);
    let mut element = None;
    for axis in 0..tiles::rank(view) {
        let typed = lookups::operand_type(x, operation, start + axis);
        let index = tiles::tile_of(lookups::row_by(x, sheet, typed));
        let sparse = is_sparse_axis(x, id, axis);
        index_rule(index, view, axis, sparse, element)?;
        element = element_after(index, sparse, element);
    }
    Ok(())
}

// The arm, on the view's type, the tile that it takes and gives, and the value.
#[tactic(auto, unfolding(crate::specs::View::view_by, lookups::specs::Verdict::fail_if))]
fn view_by(
    x: &Tables<'_, '_, '_>,
    sheet: &[u64],
    operation: u64,
    opcode: u64,
    id: u64,
    view: Tile,
    value: Tile,
) -> Verdict
    ensures { result ≡ view_by x.now.t x.now.v x.now.o x.now.a x.now.l sheet.now x.now.counts operation opcode id view value }
{
    fail_if(!tiles::is_tile(view), 2)?;
    fail_if(!tiles::is_tile(value), 3)?;
    fail_if(is_other_tile(value, view), 4)?;
    fail_if(is_no_reduction(x, operation, opcode, id), 5)?;
    fail_if(is_mode_wrong(x, sheet, operation, opcode, view.kind), 6)?;
    fail_if(is_count_wrong(x, operation, opcode, view), 7)?;
    indices_rule(x, sheet, operation, opcode, id, view)?;
    fail_if(is_order_wrong(x, operation, opcode), 13)
}

// The arm, on the view's type.
#[tactic(auto, unfolding(crate::specs::View::view_rule))]
fn view_rule(x: &Tables<'_, '_, '_>, sheet: &[u64], operation: u64, opcode: u64, id: u64) -> Verdict
    ensures { result ≡ view_rule x.now.t x.now.v x.now.o x.now.a x.now.l sheet.now x.now.counts operation opcode id }
{
    let view = tiles::view_tile(x, id);
    let value = value_tile(x, sheet, operation, opcode, view);
    view_by(x, sheet, operation, opcode, id, view, value)
}

// The arm of LoadViewTko, StoreViewTko and AtomicRedViewTko.
#[tactic(auto, unfolding(crate::specs::View::view_arm_in))]
pub fn view_access(x: &Tables<'_, '_, '_>, sheet: &[u64], operation: u64) -> Verdict
    ensures { result ≡ view_arm sheet.now x.now operation }
{
    let opcode = x.opcode(operation);
    let typed = lookups::operand_type(x, operation, view_place(opcode));
    let id = typed.ok_or(Fault::Broken(1))?;
    view_rule(x, sheet, operation, opcode, id)
}
