// Codes 11 and 12: the operation rules, arm by arm, over operations given in walk order.
#![tactic(auto)]

ghost use Rattle.std.specs.Prelude.{◌≡◌, cond, length};
ghost use Rattle.cells.specs.Lists.{below};
ghost use Rattle.tables.specs.Tables.{opcode};
ghost use Rattle.rules.specs.Operation.{arm_of, arm_rule, judged, verify_operation, rules};

use lookups::{Fault, Verdict};
use rules_atomic::{ATOMIC_CAS, ATOMIC_RMW};
use rules_shape::{BITCAST, BROADCAST, PACK, PERMUTE, RESHAPE, UNPACK};
use tables::{Answer, Refusal, Tables};

mod opcodes;

use opcodes::*;

// What the arm of its opcode asks of an operation, in one step: two would be two jumps.
#[tactic(auto, unfolding(crate::specs::Operation::arm_of, crate::specs::Operation::arm_rule))]
fn arm_rule(version: u64, x: &Tables<'_, '_, '_>, sheet: &[u64], i: u64) -> Verdict
    ensures { result ≡ arm_rule version sheet.now x.now i (arm_of (opcode x.now i)) }
{
    match x.opcode(i) {
        BITCAST | RESHAPE | BROADCAST | PERMUTE | PACK | UNPACK => {
            rules_shape::shape_arm(x, sheet, i)
        }
        ATOMIC_RMW | ATOMIC_CAS => rules_atomic::atomic_arm(x, sheet, i),
        ASSUME => rules_assume::assume(x, sheet, i),
        MAKE_TENSOR_VIEW | MAKE_PARTITION_VIEW | MAKE_GATHER_SCATTER_VIEW | MAKE_STRIDED_VIEW => {
            rules_small::make_view(x, i)
        }
        ALLOCA => rules_small::alloca(x, sheet, i),
        F_POW_I => rules_small::f_pow_i(x, sheet, i),
        MMA_F | MMA_I | MMA_F_SCALED => rules_matrix::mma(x, sheet, i),
        INSERT | EXTRACT => rules_matrix::insert_extract(x, sheet, i),
        F_TO_I => rules_small::f_to_i(x, i),
        F_TO_F => rules_small::f_to_f(version, x, sheet, i),
        ADD_F | SUB_F | MUL_F | FMA => rules_small::add_f(x, i),
        EXP | TAN_H => rules_small::exp(x, sheet, i),
        GDC_LAUNCH_DEPENDENTS_TKO | GDC_WAIT_TKO | MEMORY_FENCE_ALIAS_TKO => {
            rules_small::tokens(x, i)
        }
        LOAD_VIEW_TKO | STORE_VIEW_TKO | ATOMIC_RED_VIEW_TKO => {
            rules_view::view_access(x, sheet, i)
        }
        _ => Ok(()),
    }
}

// The answer to what a rule says of an operation.
fn judged(operation: u64, verdict: Verdict) -> Answer
    ensures { result ≡ judged operation verdict }
{
    match verdict {
        Ok(()) => Ok(()),
        Err(Fault::Broken(reason)) => Err(Refusal::RuleBroken { operation, reason }),
        Err(Fault::Leaves) => Err(Refusal::ProductLeaves { operation }),
    }
}

// The rules of an operation: its opcode's arm, then the closing rule on flush_to_zero.
#[tactic(auto, using(crate::proofs::Along::unflushed), unfolding(crate::specs::Operation::verify_operation))]
fn verify_operation(version: u64, x: &Tables<'_, '_, '_>, sheet: &[u64], operation: u64) -> Answer
    ensures { result ≡ verify_operation version sheet.now x.now operation }
{
    judged(operation, arm_rule(version, x, sheet, operation))?;
    // Many operations have no attribute, so none that flushes: they are not handed on.
    if x.attributes(operation).len == 0 {
        return Ok(());
    }
    judged(operation, rules_small::flushed(x, sheet, operation))
}

// The place itself, or what is given for it.
fn place_or(straight: bool, place: u64, given: u64) -> u64
    ensures { result ≡ cond straight place given }
{
    if straight { place } else { given }
}

// The rules of the operations, in the order given or in that of the table: the first refusal. One loop for both: the rules stand in it once, and
// are not called.
#[tactic(auto, using(crate::proofs::Along::along_step, crate::proofs::Along::along_end), unfolding(crate::specs::Operation::rules))]
fn rules_along(
    version: u64,
    x: &Tables<'_, '_, '_>,
    sheet: &[u64],
    order: &[u64],
    straight: bool,
) -> Answer
    ensures { result ≡ rules version sheet.now x.now (cond straight (below (length order.now)) order.now) }
{
    for (k, &given) in order.iter().enumerate() {
        let operation = place_or(straight, k as u64, given);
        verify_operation(version, x, sheet, operation)?;
    }
    Ok(())
}

// The rules of the operations, in the order given: the first refusal. Rows next to each other are read faster than rows in that order, and most
// modules pass: so where no operation is left out the table is followed first, and the order where it refuses.
#[tactic(auto, using(crate::proofs::Along::in_any_order))]
pub fn check_rules(version: u64, x: &Tables<'_, '_, '_>, sheet: &[u64], order: &[u64]) -> Answer
    ensures { result ≡ rules version sheet.now x.now order.now }
{
    if x.counts().operations <= order.len() as u64 {
        if let Ok(()) = rules_along(version, x, sheet, order, true) {
            return Ok(());
        }
    }
    rules_along(version, x, sheet, order, false)
}
