// Code 1: every id, span, form, flag and width of the eight tables in range.
// Tests are joined by `&`, which asks them all: each answers for any entry, and the code reads as the definition does.
#![tactic(auto)]

ghost use Rattle.std.specs.Prelude.{◌≡◌, ℕ, Bool, ◌+◌, ◌-◌, ◌^◌, ◌<◌, suc, min, length, leb, ltb};
ghost use Rattle.tables.specs.Sizes.{max_types, max_values, max_operations, max_attributes, max_blocks, max_regions, max_functions, max_entries, type_table, value_table, operation_table, attribute_table, block_table, region_table, function_table};
ghost use Rattle.ranges.specs.Entry.{all, all_below, signed32, within, good_type, good_claim, good_value, good_operation, good_numbers, good_attribute, good_block, good_region};
ghost use Rattle.ranges.specs.Range.{listed_by_operation, listed_by_attribute, listed_by_block, listed_by_region, table_ranges, good_count, good_sheet, sheet_range};
ghost use Rattle.ranges.specs.Part.{good_list, stands_in, first_of, scan_of, good_fixed, good_mode, good_kind};

use cells::Span;
use tables::{Answer, Claim, Refusal, Tables};

// The forms of a type, the opcodes, the kinds and the atomic modes are the numbers below these.
const TYPE_FORMS: u64 = 7;

const OPCODES: u64 = 105;

const KINDS: u64 = 16;

const MODES: u64 = 16;

// The names that a rule looks up are numbered from 1 to this.
const NAMES: u64 = 13;

// Which entries are good, by who answers for any.
pub trait IsGood {
    ghost says: { Self → ℕ → Bool → Type 0 };

    fn is_good(&self, entry: u64) -> bool
        ensures { says self.now entry result };
}

// How many list entries an entry's lists take, by who answers for any.
pub trait Takes {
    ghost tells: { Self → ℕ → ℕ → Type 0 };

    fn listed(&self, entry: u64) -> u64
        ensures { tells self.now entry result };
}

// A table as a pass over it sees it: its number, its size, the cells of a row, how many were lent, and how many entries count.
#[derive(Clone, Copy)]
pub struct Pass {
    pub table: u64,
    pub size: u64,
    pub width: u64,
    pub cells: u64,
    pub count: u64,
}

impl Pass {
    pub fn types(x: &Tables<'_, '_, '_>) -> Pass
        ensures { result ≡ record { table = type_table; size = max_types; width = 16; cells = length x.now.t; count = x.now.counts.types } }
    {
        Pass {
            table: tables::TYPE_TABLE,
            size: tables::MAX_TYPES,
            width: tables::TYPE_CELLS,
            cells: x.type_cells().len() as u64,
            count: x.counts().types,
        }
    }

    pub fn values(x: &Tables<'_, '_, '_>) -> Pass
        ensures { result ≡ record { table = value_table; size = max_values; width = 4; cells = length x.now.v; count = x.now.counts.values } }
    {
        Pass {
            table: tables::VALUE_TABLE,
            size: tables::MAX_VALUES,
            width: tables::VALUE_CELLS,
            cells: x.value_cells().len() as u64,
            count: x.counts().values,
        }
    }

    pub fn operations(x: &Tables<'_, '_, '_>) -> Pass
        ensures { result ≡ record { table = operation_table; size = max_operations; width = 16; cells = length x.now.o; count = x.now.counts.operations } }
    {
        Pass {
            table: tables::OPERATION_TABLE,
            size: tables::MAX_OPERATIONS,
            width: tables::OPERATION_CELLS,
            cells: x.operation_cells().len() as u64,
            count: x.counts().operations,
        }
    }

    pub fn attributes(x: &Tables<'_, '_, '_>) -> Pass
        ensures { result ≡ record { table = attribute_table; size = max_attributes; width = 8; cells = length x.now.a; count = x.now.counts.attributes } }
    {
        Pass {
            table: tables::ATTRIBUTE_TABLE,
            size: tables::MAX_ATTRIBUTES,
            width: tables::ATTRIBUTE_CELLS,
            cells: x.attribute_cells().len() as u64,
            count: x.counts().attributes,
        }
    }

    pub fn blocks(x: &Tables<'_, '_, '_>) -> Pass
        ensures { result ≡ record { table = block_table; size = max_blocks; width = 4; cells = length x.now.b; count = x.now.counts.blocks } }
    {
        Pass {
            table: tables::BLOCK_TABLE,
            size: tables::MAX_BLOCKS,
            width: tables::BLOCK_CELLS,
            cells: x.block_cells().len() as u64,
            count: x.counts().blocks,
        }
    }

    pub fn regions(x: &Tables<'_, '_, '_>) -> Pass
        ensures { result ≡ record { table = region_table; size = max_regions; width = 2; cells = length x.now.r; count = x.now.counts.regions } }
    {
        Pass {
            table: tables::REGION_TABLE,
            size: tables::MAX_REGIONS,
            width: tables::REGION_CELLS,
            cells: x.region_cells().len() as u64,
            count: x.counts().regions,
        }
    }

    pub fn functions(x: &Tables<'_, '_, '_>) -> Pass
        ensures { result ≡ record { table = function_table; size = max_functions; width = 1; cells = length x.now.f; count = x.now.counts.functions } }
    {
        Pass {
            table: tables::FUNCTION_TABLE,
            size: tables::MAX_FUNCTIONS,
            width: tables::FUNCTION_CELLS,
            cells: x.function_cells().len() as u64,
            count: x.counts().functions,
        }
    }

    // Whether entry i is within the size of its table and whole among the cells lent.
    pub fn stands(&self, i: u64) -> bool
        ensures { result ≡ stands_in self.now i }
    {
        if self.width == 0 {
            return i < self.size;
        }
        (i < self.size) & (i < self.cells / self.width)
    }

    // The first entry that does not stand or is not good, by a closure.
    fn first_bad_by<F: Fn(u64) -> bool>(&self, good: F) -> Answer
        requires { F.IsAlwaysCallable good }
        ensures { (p : ℕ → Bool) → ((i : ℕ) (r : Bool) → i < self.now.count → F.post good i r → r ≡ p i) → result ≡ first_of self.now p }
    {
        for entry in 0..self.count {
            if !(self.stands(entry) & good(entry)) {
                return Err(Refusal::OutOfRange {
                    table: self.table,
                    entry,
                });
            }
        }
        Ok(())
    }

    // Of a table that holds lists, by what each entry's lists add to those before: the list entries up to its end, or its first entry that
    // does not stand, is not good or has no room; by closures.
    fn scan_by<F: Fn(u64) -> bool, L: Fn(u64) -> u64>(
        &self,
        before: u64,
        good: F,
        listed: L,
    ) -> Result<u64, Refusal>
        requires tests { F.IsAlwaysCallable good }
        requires counts { L.IsAlwaysCallable listed }
        ensures { (p : ℕ → Bool) (f : ℕ → ℕ) → ((i : ℕ) (r : Bool) → i < self.now.count → F.post good i r → r ≡ p i) → ((i r : ℕ) → i < self.now.count → L.post listed i r → r ≡ min (f i) (2 ^ 64 - 1)) → result ≡ scan_of self.now p f before }
    {
        let mut used = before;
        for entry in 0..self.count {
            used = add_list(used, listed(entry));
            if !(self.stands(entry) & (good(entry) & (used <= tables::MAX_ENTRIES))) {
                return Err(Refusal::OutOfRange {
                    table: self.table,
                    entry,
                });
            }
        }
        Ok(used)
    }

    // The first entry that does not stand or is not good.
    pub fn first_bad<G: IsGood>(&self, good: &G) -> Answer
        ensures { (p : ℕ → Bool) → ((i : ℕ) (r : Bool) → i < self.now.count → G.says good.now i r → r ≡ p i) → result ≡ first_of self.now p }
    {
        self.first_bad_by(|entry| good.is_good(entry))
    }

    // The list entries up to the table's end, or its first entry that does not stand, is not good or has no room.
    pub fn scan<G: IsGood, T: Takes>(
        &self,
        before: u64,
        good: &G,
        listed: &T,
    ) -> Result<u64, Refusal>
        ensures { (p : ℕ → Bool) (f : ℕ → ℕ) → ((i : ℕ) (r : Bool) → i < self.now.count → G.says good.now i r → r ≡ p i) → ((i r : ℕ) → i < self.now.count → T.tells listed.now i r → r ≡ min (f i) (2 ^ 64 - 1)) → result ≡ scan_of self.now p f before }
    {
        self.scan_by(
            before,
            |entry| good.is_good(entry),
            |entry| listed.listed(entry),
        )
    }
}

// Whether len entries from start on stand among total: no sum wraps.
fn fits(start: u64, len: u64, total: u64) -> bool
    ensures { result ≡ leb (start + len) total }
{
    if total < start {
        return false;
    }
    len <= total - start
}

// The list entries with so many more, or one more than there may be where they would pass that.
pub fn add_list(used: u64, len: u64) -> u64
    ensures { result ≡ min (used + len) (suc max_entries) }
{
    used.saturating_add(len).min(tables::MAX_ENTRIES + 1)
}

fn all_below(xs: &[u64], n: u64) -> bool
    ensures { result ≡ all_below n xs.now }
{
    xs.iter().all(|&x| x < n)
}

// Whether the 64 bits are those of a signed number of 32.
fn is_signed32(x: u64) -> bool
    ensures { result ≡ signed32 x }
{
    (x < 2147483648) | (18446744071562067968 <= x)
}

fn all_signed32(xs: &[u64]) -> bool
    ensures { result ≡ all signed32 xs.now }
{
    xs.iter().all(|&x| is_signed32(x))
}

// Whether a list stands within the list entries; and whether it is whole there and holds ids below n alone.
fn is_within(x: &Tables<'_, '_, '_>, span: Span) -> bool
    ensures { result ≡ within x.now span }
{
    fits(span.start, span.len, x.entries().len() as u64)
}

pub fn good_list(x: &Tables<'_, '_, '_>, span: Span, n: u64) -> bool
    ensures { result ≡ good_list x.now.l span n }
{
    is_within(x, span) & all_below(cells::entries(x.entries(), span), n)
}

// A token's other columns mean nothing.
fn good_type(x: &Tables<'_, '_, '_>, id: u64) -> bool
    ensures { result ≡ good_type x.now id }
{
    let form = x.type_form(id);
    let tile = (form < TYPE_FORMS)
        & (x.type_kind(id) < KINDS)
        & (x.type_pointer(id) < 4294967296)
        & (x.type_padded(id) < 2)
        & is_signed32(x.type_sparse(id))
        & (x.type_rank(id) <= tables::MAX_RANK)
        & ((form < 4) | all_signed32(x.type_dims(id)));
    (form == 0) | tile
}

// What a value claims: any index of an operation that there is.
fn good_claim(x: &Tables<'_, '_, '_>, claim: Option<Claim>) -> bool
    ensures { result ≡ good_claim x.now claim }
{
    match claim {
        None => true,
        Some(c) => c.operation < x.counts().operations,
    }
}

fn good_value(x: &Tables<'_, '_, '_>, id: u64) -> bool
    ensures { result ≡ good_value x.now id }
{
    (x.value_type(id) < x.counts().types) & (x.claim_flag(id) < 2) & good_claim(x, x.claim(id))
}

fn good_operation(x: &Tables<'_, '_, '_>, id: u64) -> bool
    ensures { result ≡ good_operation x.now id }
{
    let n = x.counts();
    let attributes = x.attributes_span(id);
    (x.opcode(id) < OPCODES)
        & good_list(x, x.result_types_span(id), n.types)
        & good_list(x, x.operands_span(id), n.values)
        & good_list(x, x.regions_span(id), n.regions)
        & fits(attributes.start, attributes.len, n.attributes)
}

// How many numbers an attribute of a form has, which of them may be absent, and how wide they are.
fn good_numbers(form: u64, count: u64, absent: u64, xs: &[u64]) -> bool
    ensures { result ≡ good_numbers form count absent xs.now }
{
    if form == names::INTEGER {
        return (count == 1) & (absent == 0);
    }
    if form == names::BOOL {
        return (count == 1) & (absent == 0) & all_below(xs, 2);
    }
    if form == names::INTEGERS {
        return absent == 0;
    }
    if form == names::BOOLS {
        return (absent == 0) & all_below(xs, 2);
    }
    if form == names::PERMUTATION_LIST {
        return (absent == 0) & all_signed32(xs);
    }
    if form == names::DIVISOR {
        return (count == 3) & ((absent == 0) | (absent == 2) | (absent == 4) | (absent == 6));
    }
    if form == names::SIZES {
        return absent == 0;
    }
    if form == names::ENDPOINTS {
        return (count == 2) & (absent < 4);
    }
    (form == names::OTHER) & (count == 0) & (absent == 0)
}

fn good_attribute(x: &Tables<'_, '_, '_>, id: u64) -> bool
    ensures { result ≡ good_attribute x.now id }
{
    let span = x.attribute_numbers_span(id);
    (x.attribute_name(id) <= NAMES)
        & is_within(x, span)
        & good_numbers(
            x.attribute_form(id),
            span.len,
            x.attribute_absent(id),
            x.attribute_numbers(id),
        )
}

fn good_block(x: &Tables<'_, '_, '_>, id: u64) -> bool
    ensures { result ≡ good_block x.now id }
{
    good_list(x, x.arguments_span(id), x.counts().values)
        & good_list(x, x.operations_span(id), x.counts().operations)
}

pub fn good_region(x: &Tables<'_, '_, '_>, id: u64) -> bool
    ensures { result ≡ good_region x.now id }
{
    good_list(x, x.blocks_span(id), x.counts().blocks)
}

// How many list entries an entry's lists take, as far as 64 bits go.
pub fn listed_by_operation(x: &Tables<'_, '_, '_>, id: u64) -> u64
    ensures { result ≡ min (listed_by_operation x.now id) (2 ^ 64 - 1) }
{
    let types = x.result_types_span(id).len;
    let operands = x.operands_span(id).len;
    let regions = x.regions_span(id).len;
    types.saturating_add(operands).saturating_add(regions)
}

fn listed_by_attribute(x: &Tables<'_, '_, '_>, id: u64) -> u64
    ensures { result ≡ min (listed_by_attribute x.now id) (2 ^ 64 - 1) }
{
    x.attribute_numbers_span(id).len
}

pub fn listed_by_block(x: &Tables<'_, '_, '_>, id: u64) -> u64
    ensures { result ≡ min (listed_by_block x.now id) (2 ^ 64 - 1) }
{
    let arguments = x.arguments_span(id).len;
    let operations = x.operations_span(id).len;
    arguments.saturating_add(operations)
}

pub fn listed_by_region(x: &Tables<'_, '_, '_>, id: u64) -> u64
    ensures { result ≡ min (listed_by_region x.now id) (2 ^ 64 - 1) }
{
    x.blocks_span(id).len
}

// The first table's first entry that is out of range.
pub fn check_tables(x: &Tables<'_, '_, '_>) -> Answer
    ensures { result ≡ table_ranges x.now }
{
    Pass::types(x).first_bad_by(|i| good_type(x, i))?;
    Pass::values(x).first_bad_by(|i| good_value(x, i))?;
    let used = Pass::operations(x).scan_by(
        0,
        |i| good_operation(x, i),
        |i| listed_by_operation(x, i),
    )?;
    let used = Pass::attributes(x).scan_by(
        used,
        |i| good_attribute(x, i),
        |i| listed_by_attribute(x, i),
    )?;
    let used = Pass::blocks(x).scan_by(used, |i| good_block(x, i), |i| listed_by_block(x, i))?;
    Pass::regions(x).scan_by(used, |i| good_region(x, i), |i| listed_by_region(x, i))?;
    Pass::functions(x).first_bad_by(|i| x.function(i) < x.counts().operations)
}

// The rows of the sheet for an opcode, an atomic mode and a kind.
fn good_count(fixed: Option<u64>) -> bool
    ensures { result ≡ good_count fixed }
{
    match fixed {
        None => true,
        Some(n) => n <= 8192,
    }
}

fn good_fixed(sheet: &[u64], opcode: u64) -> bool
    ensures { result ≡ good_fixed sheet.now opcode }
{
    (tables::fixed_flag(sheet, opcode) < 2) & good_count(tables::fixed_count(sheet, opcode))
}

fn good_mode(sheet: &[u64], mode: u64) -> bool
    ensures { result ≡ good_mode sheet.now mode }
{
    tables::mode_mask(sheet, mode) < 65536
}

fn good_kind(sheet: &[u64], kind: u64) -> bool
    ensures { result ≡ good_kind sheet.now kind }
{
    (tables::contained_mask(sheet, kind) < 65536) & (tables::byte_width(sheet, kind) <= 8)
}

fn good_sheet(sheet: &[u64]) -> bool
    ensures { result ≡ good_sheet sheet.now }
{
    (tables::SHEET_CELLS <= sheet.len() as u64)
        & (0..OPCODES).all(|opcode| good_fixed(sheet, opcode))
        & (0..MODES).all(|mode| good_mode(sheet, mode))
        & (0..KINDS).all(|kind| good_kind(sheet, kind))
        & (tables::tile_flag(sheet) < 2)
}

pub fn check_sheet(sheet: &[u64]) -> Answer
    ensures { result ≡ sheet_range sheet.now }
{
    if good_sheet(sheet) {
        return Ok(());
    }
    Err(Refusal::OutOfRange {
        table: tables::SHEET_TABLE,
        entry: 0,
    })
}

#[cfg(test)]
mod pass_tests {
    use super::*;

    // Entries below a bound are good, and each takes two list entries.
    #[derive(Drop)]
    struct Below(u64);

    impl IsGood for Below {
        ghost says = { λ b i r. r ≡ ltb i b.0 };

        fn is_good(&self, entry: u64) -> bool {
            entry < self.0
        }
    }

    impl Takes for Below {
        ghost tells = { λ _ _ r. r ≡ 2 };

        fn listed(&self, _entry: u64) -> u64 {
            2
        }
    }

    // Five functions, of which so many are lent.
    fn functions(cells: u64) -> Pass
        ensures { result ≡ record { table = 7; size = 64; width = 1; cells = cells; count = 5 } }
    {
        Pass {
            table: tables::FUNCTION_TABLE,
            size: tables::MAX_FUNCTIONS,
            width: tables::FUNCTION_CELLS,
            cells,
            count: 5,
        }
    }

    fn refused_at(answer: Answer) -> Option<u64> {
        match answer {
            Err(Refusal::OutOfRange { entry, .. }) => Some(entry),
            _ => None,
        }
    }

    #[test]
    fn the_first_bad_entry_is_refused(rt: HostRuntime) {
        assert!(rt; functions(5).first_bad(&Below(5)).is_ok());
        assert_eq!(rt; refused_at(functions(5).first_bad(&Below(3))), Some(3));
        assert_eq!(rt; refused_at(functions(4).first_bad(&Below(5))), Some(4));
    }

    #[test]
    fn list_entries_are_counted_up_to_8192(rt: HostRuntime) {
        let all = Below(5);
        assert_eq!(rt; functions(5).scan(100, &all, &all).ok(), Some(110));
        assert_eq!(rt; functions(5).scan(8182, &all, &all).ok(), Some(8192));
        assert!(rt; functions(5).scan(8183, &all, &all).is_err());
        assert!(rt; functions(5).scan(100, &Below(4), &all).is_err());
    }
}
