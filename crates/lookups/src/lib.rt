// What a rule reads of an operation: its attributes by name and form, and the types and tiles of its operands and its result.
#![tactic(auto, using(crate::proofs::Rows::row_tile_by), unfolding(crate::specs::Lookup::is_taken, crate::specs::Lookup::first_in, crate::specs::Lookup::is_entry, crate::specs::Lookup::integer_in, crate::specs::Lookup::permutation_in, crate::specs::Lookup::segments_in, crate::specs::Lookup::segment_in, crate::specs::Lookup::flushes_in, crate::specs::Typed::operand_type_in, crate::specs::Typed::result_type_in, crate::specs::Typed::operand_tile_in, crate::specs::Typed::result_tile_in))]

ghost use Rattle.std.specs.Prelude.{◌≡◌, Ok};
ghost use Rattle.tiles.specs.Tile.{has_kind};
ghost use Rattle.lookups.specs.Lookup.{is_taken, first_in, is_entry, entry_of, integer_of, permutation_of, segments_of, segment_of, flushes};
ghost use Rattle.lookups.specs.Typed.{operand_type, result_type, row_by, operand_tile, result_tile};
ghost use Rattle.lookups.specs.Verdict.{fail_if, leave_if};

use tables::Tables;
use tiles::Tile;

// Why an arm of the rules refuses: the reason that is broken, or a product that is no i64.
#[derive(Clone, Copy)]
pub enum Fault {
    Broken(u64),
    Leaves,
}

// What an arm of the rules answers: all kept, or the first fault.
pub type Verdict = Result<(), Fault>;

// A line of an arm: where the test holds, the reason is broken.
#[tactic(auto, unfolding(crate::specs::Verdict::fail_if))]
pub fn fail_if(test: bool, reason: u64) -> Verdict
    ensures { result ≡ fail_if test reason (Ok tt) }
{
    if test {
        return Err(Fault::Broken(reason));
    }
    Ok(())
}

// Where the test holds, a product leaves i64.
#[tactic(auto, unfolding(crate::specs::Verdict::leave_if))]
pub fn leave_if(test: bool) -> Verdict
    ensures { result ≡ leave_if test (Ok tt) }
{
    if test {
        return Err(Fault::Leaves);
    }
    Ok(())
}

// What a lookup takes, besides the name.
#[derive(Clone, Copy)]
pub enum Wanted {
    Integer,
    Array,
    Permutation,
    NotFalse,
}

// The attribute that holds an operation's segment sizes, by what they are.
#[derive(Clone, Copy)]
pub enum SegmentSizes {
    Integers(u64),
    Bools(u64),
    Missing,
}

// An attribute of this form and with this first number is as wanted.
fn is_taken(wanted: Wanted, form: u64, first: u64) -> bool
    ensures { result ≡ is_taken wanted form first }
{
    match wanted {
        Wanted::Integer => form == names::INTEGER,
        Wanted::Array => (form == names::INTEGERS) | (form == names::BOOLS),
        Wanted::Permutation => form == names::PERMUTATION_LIST,
        Wanted::NotFalse => !((form == names::BOOL) & (first == 0)),
    }
}

// The first number of an attribute.
fn first_number(x: &Tables<'_, '_, '_>, attribute: u64) -> u64
    ensures { result ≡ first_in x.now.a x.now.l x.now.counts attribute }
{
    cells::at(x.attribute_numbers(attribute), 0)
}

// The attribute has this name and is as wanted.
fn is_entry(x: &Tables<'_, '_, '_>, attribute: u64, name: u64, wanted: Wanted) -> bool
    ensures { result ≡ is_entry x.now.a x.now.l x.now.counts name wanted attribute }
{
    x.attribute_name(attribute) == name
        && is_taken(
            wanted,
            x.attribute_form(attribute),
            first_number(x, attribute),
        )
}

// The first attribute of an operation with this name that is as wanted.
pub fn find(x: &Tables<'_, '_, '_>, operation: u64, name: u64, wanted: Wanted) -> Option<u64>
    ensures { result ≡ entry_of x.now operation name wanted }
{
    let span = x.attributes(operation);
    (span.start..span.start + span.len).find(|k| is_entry(x, *k, name, wanted))
}

// The 64 bits of an operation's integer of this name.
pub fn integer(x: &Tables<'_, '_, '_>, operation: u64, name: u64) -> Option<u64>
    ensures { result ≡ integer_of x.now operation name }
{
    let k = find(x, operation, name, Wanted::Integer)?;
    Some(first_number(x, k))
}

// The attribute that holds the axes of an operation's permutation.
pub fn permutation(x: &Tables<'_, '_, '_>, operation: u64) -> Option<u64>
    ensures { result ≡ permutation_of x.now operation }
{
    find(x, operation, names::PERMUTATION, Wanted::Permutation)
}

// Where an operation's segment sizes stand, and whether they are integers.
pub fn segments(x: &Tables<'_, '_, '_>, operation: u64) -> SegmentSizes
    ensures { result ≡ segments_of x.now operation }
{
    match find(x, operation, names::OPERAND_SEGMENT_SIZES, Wanted::Array) {
        Some(k) if x.attribute_form(k) == names::INTEGERS => SegmentSizes::Integers(k),
        Some(k) => SegmentSizes::Bools(k),
        None => SegmentSizes::Missing,
    }
}

// The size of a segment, where the sizes are integers and there are so many.
pub fn segment(x: &Tables<'_, '_, '_>, operation: u64, position: u64) -> Option<u64>
    ensures { result ≡ segment_of x.now operation position }
{
    match segments(x, operation) {
        SegmentSizes::Integers(k) => x.attribute_numbers(k).get(position as usize).copied(),
        _ => None,
    }
}

// Some flush_to_zero of an operation is anything but a false bool.
pub fn flushes(x: &Tables<'_, '_, '_>, operation: u64) -> bool
    ensures { result ≡ flushes x.now operation }
{
    find(x, operation, names::FLUSH_TO_ZERO, Wanted::NotFalse).is_some()
}

// The type of an operation's operand k.
pub fn operand_type(x: &Tables<'_, '_, '_>, operation: u64, k: u64) -> Option<u64>
    ensures { result ≡ operand_type x.now operation k }
{
    let value = x.operands(operation).get(k as usize)?;
    Some(x.value_type(*value))
}

// The type of an operation's first result.
pub fn result_type(x: &Tables<'_, '_, '_>, operation: u64) -> Option<u64>
    ensures { result ≡ result_type x.now operation }
{
    x.result_types(operation).first().copied()
}

// The cells of a type that is a tile; none where there is no type. An arm that asks no dims takes the tile of these by itself: it is then not
// built whole.
pub fn row_by<'t>(x: &Tables<'_, 't, '_>, sheet: &[u64], typed: Option<u64>) -> &'t [u64]
    ensures { result.now ≡ row_by x.now.t sheet.now x.now.counts typed }
{
    match typed {
        Some(id) => tiles::seen_row(x, sheet, id),
        None => &[],
    }
}

// The tile of an operation's operand k.
pub fn operand_tile(x: &Tables<'_, '_, '_>, sheet: &[u64], operation: u64, k: u64) -> Tile
    ensures { result ≡ operand_tile sheet.now x.now operation k }
{
    tiles::tile_of(row_by(x, sheet, operand_type(x, operation, k)))
}

// The tile of an operation's first result.
pub fn result_tile(x: &Tables<'_, '_, '_>, sheet: &[u64], operation: u64) -> Tile
    ensures { result ≡ result_tile sheet.now x.now operation }
{
    tiles::tile_of(row_by(x, sheet, result_type(x, operation)))
}

// Operand k is a tile of numbers of this kind.
pub fn operand_has_kind(
    x: &Tables<'_, '_, '_>,
    sheet: &[u64],
    operation: u64,
    k: u64,
    kind: u64,
) -> bool
    ensures { result ≡ has_kind (operand_tile sheet.now x.now operation k) kind }
{
    let row = row_by(x, sheet, operand_type(x, operation, k));
    tiles::has_kind(tiles::tile_of(row), kind)
}
