// Codes 9 and 10: whether a target has what it asks for itself, and what each operation asks for.
#![tactic(auto)]

ghost use Rattle.std.specs.Prelude.{◌≡◌};
ghost use Rattle.tables.specs.Tables.{attributes};
ghost use Rattle.tables.specs.Answer.{each};
ghost use Rattle.capabilities.specs.Ask.{ask, kind_asked, attribute_asked, operation_asks, capabilities};
ghost use Rattle.capabilities.specs.Part.{Knows, attribute_asks, operand_asks, result_asks};

use requirements::Unmet;
use tables::{Answer, Refusal, Tables, Target};

// How many element kinds there are.
const KINDS: usize = 16;

// What the target says to a feature that an operation asks for.
#[tactic(auto, unfolding(crate::specs::Ask::ask))]
pub fn ask(g: Target, operation: u64, asked: Option<u64>) -> Answer
    ensures { result ≡ ask g operation asked }
{
    let Some(feature) = asked else {
        return Ok(());
    };
    match requirements::requirement_met(feature, g.version, g.sm) {
        Ok(()) => Ok(()),
        Err(Unmet::VersionLow) => Err(Refusal::VersionLow { operation, feature }),
        Err(Unmet::ArchitectureNot) => Err(Refusal::ArchitectureNot { operation, feature }),
    }
}

// What an attribute of an operation asks for.
#[tactic(auto, unfolding(crate::specs::Ask::attribute_asked))]
fn attribute_asked(x: &Tables<'_, '_, '_>, operation: u64, attribute: u64) -> Option<u64>
    ensures { result ≡ attribute_asked x.now operation attribute }
{
    requirements::attribute_feature(
        x.opcode(operation),
        x.attribute_name(attribute),
        x.attribute_form(attribute),
        x.attribute_numbers(attribute),
    )
}

// The attributes of an operation, in order.
#[tactic(auto, using(crate::proofs::Rows::each_row, crate::proofs::Rows::each_end))]
fn ask_attributes(g: Target, x: &Tables<'_, '_, '_>, operation: u64) -> Answer
    ensures { result ≡ each (attribute_asks g x.now operation) (attributes x.now operation) }
{
    let span = x.attributes(operation);
    for attribute in span.start..span.start + span.len {
        ask(g, operation, attribute_asked(x, operation, attribute))?;
    }
    Ok(())
}

// A target, and the kinds whose feature it has, asked once: most questions are about these. Any other kind is asked as every feature is.
#[derive(Clone, Copy)]
struct Asked {
    pub g: Target,
    pub known: [bool; KINDS],
    ghost true_marks: { Knows g known },
}

impl Asked {
    fn new(g: Target) -> Asked
        ensures { result.g ≡ g }
    {
        let mut known = [false; KINDS];
        for kind in 0..KINDS {
            known[kind] = ask(g, 0, requirements::scalar_requirement(kind as u64)).is_ok();
        }
        Asked { g, known }
    }

    // What the target says to a type's element kind: a token has none.
    #[tactic(auto, using(crate::proofs::Marks::any_operation), unfolding(crate::specs::Ask::ask, crate::specs::Ask::kind_asked))]
    fn ask_kind(&self, x: &Tables<'_, '_, '_>, operation: u64, id: u64) -> Answer
        ensures { result ≡ ask self.now.g operation (kind_asked x.now id) }
    {
        if x.type_form(id) == 0 {
            return Ok(());
        }
        let kind = x.type_kind(id);
        if kind < 16 && self.known[kind as usize] {
            return Ok(());
        }
        ask(self.g, operation, requirements::scalar_requirement(kind))
    }

    // The kinds of an operation's operands, in order.
    fn ask_operands(&self, x: &Tables<'_, '_, '_>, operation: u64, operands: &[u64]) -> Answer
        ensures { result ≡ each (operand_asks self.now.g x.now operation) operands.now }
    {
        for &operand in operands {
            self.ask_kind(x, operation, x.value_type(operand))?;
        }
        Ok(())
    }

    // The kinds of an operation's results, in order.
    fn ask_results(&self, x: &Tables<'_, '_, '_>, operation: u64, types: &[u64]) -> Answer
        ensures { result ≡ each (result_asks self.now.g x.now operation) types.now }
    {
        for &id in types {
            self.ask_kind(x, operation, id)?;
        }
        Ok(())
    }

    // All that an operation asks for: its opcode, its attributes, the kinds of its operands, then of its results.
    #[tactic(auto, unfolding(crate::specs::Ask::operation_asks))]
    fn operation_asks(&self, x: &Tables<'_, '_, '_>, operation: u64) -> Answer
        ensures { result ≡ operation_asks self.now.g x.now operation }
    {
        let asked = requirements::opcode_requirement(x.opcode(operation));
        ask(self.g, operation, asked)?;
        ask_attributes(self.g, x, operation)?;
        self.ask_operands(x, operation, x.operands(operation))?;
        self.ask_results(x, operation, x.result_types(operation))
    }
}

// What the target asks for itself, then what the operations do, in the order given.
#[tactic(auto, unfolding(crate::specs::Ask::capabilities))]
pub fn check_capabilities(g: Target, x: &Tables<'_, '_, '_>, order: &[u64]) -> Answer
    ensures { result ≡ capabilities g x.now order.now }
{
    ask(g, 0, requirements::target_requirement(g.sm))?;
    let asked = Asked::new(g);
    for &operation in order {
        asked.operation_asks(x, operation)?;
    }
    Ok(())
}
