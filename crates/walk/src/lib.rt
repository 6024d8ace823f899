// Code 3, and the reachable operations in walk order: region visits blocks, block visits operations, operation visits regions.
#![tactic(auto)]

ghost use Rattle.std.specs.Prelude.{◌≡◌};
ghost use Rattle.walk.specs.Order.{operation_order, block_order, region_order, order};
ghost use Rattle.walk.specs.Depth.{operation_depth, block_depth, region_depth, too_deep};
ghost use Rattle.walk.specs.Written.{filled, push, Visited, told, wrote, walked};

use tables::{Refusal, Tables};

// The id at the next free place, where there is one; the place after it is the answer.
fn push_id(out: &mut [u64], used: u64, id: u64) -> u64
    ensures { filled out.new result ≡ push (filled out.old used) id }
{
    if used < out.len() as u64 {
        cells::put(out, used, id);
        return used + 1;
    }
    used
}

// Each visit answers with the next free place, or the operation that opens depth 33.
// Region id of operation owner: its blocks in order, where a depth is left for them.
#[cycle(visit_block_visit_operation_visit_region)]
fn visit_region(
    x: &Tables<'_, '_, '_>,
    out: &mut [u64],
    used: u64,
    depth: u64,
    owner: u64,
    id: u64,
) -> Result<u64, Refusal>
    ensures { Visited result out.new (filled out.old used) (region_depth depth x.now owner id) (region_order depth x.now id) }
{
    let blocks = x.blocks(id);
    if depth == 0 {
        if blocks.is_empty() {
            return Ok(used);
        }
        return Err(Refusal::TooDeep { operation: owner });
    }
    let mut next = used;
    for &block in blocks {
        next = visit_block(x, out, next, depth - 1, block)?;
    }
    Ok(next)
}

// Block id: its operations in order.
#[cycle(visit_block_visit_operation_visit_region)]
fn visit_block(
    x: &Tables<'_, '_, '_>,
    out: &mut [u64],
    used: u64,
    depth: u64,
    id: u64,
) -> Result<u64, Refusal>
    ensures { Visited result out.new (filled out.old used) (block_depth (region_depth depth x.now) x.now id) (block_order (region_order depth x.now) x.now id) }
{
    let mut next = used;
    for &operation in x.operations(id) {
        // Most operations have no regions, and the call would cost more than the rest of their visit.
        if x.regions_span(operation).len == 0 {
            next = push_id(out, next, operation);
        } else {
            next = visit_operation(x, out, next, depth, operation)?;
        }
    }
    Ok(next)
}

// Operation id, then its regions in order.
#[cycle(visit_block_visit_operation_visit_region)]
fn visit_operation(
    x: &Tables<'_, '_, '_>,
    out: &mut [u64],
    used: u64,
    depth: u64,
    id: u64,
) -> Result<u64, Refusal>
    ensures { Visited result out.new (filled out.old used) (operation_depth (region_depth depth x.now) x.now id) (operation_order (region_order depth x.now) x.now id) }
{
    let mut next = push_id(out, used, id);
    for &region in x.regions(id) {
        next = visit_region(x, out, next, depth, id, region)?;
    }
    Ok(next)
}

// The functions in order.
fn visit_functions(x: &Tables<'_, '_, '_>, out: &mut [u64]) -> Result<u64, Refusal>
    ensures { Visited result out.new (filled out.old 0) (too_deep x.now) (order x.now) }
{
    let mut next = 0;
    for &id in x.functions() {
        next = visit_operation(x, out, next, tables::MAX_DEPTH, u64::from(id))?;
    }
    Ok(next)
}

// Every reachable operation in walk order, as far as out has room, and how many were written; a refusal leaves out all zero.
pub fn walk_order(x: &Tables<'_, '_, '_>, out: &mut [u64]) -> Result<u64, Refusal>
    ensures result_value { told result ≡ too_deep x.now }
    ensures result_after { filled out.new (wrote result) ≡ walked (too_deep x.now) out.old (order x.now) }
{
    let walked = visit_functions(x, out);
    if walked.is_err() {
        cells::clear(out);
    }
    walked
}
