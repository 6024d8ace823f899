// The paper's tables: their sizes, where things stand in the lent slices, and the answers.
#![tactic(auto, unfolding(crate::specs::Layout::opcode_in, crate::specs::Layout::result_types_span_in, crate::specs::Layout::result_types_in, crate::specs::Layout::operands_span_in, crate::specs::Layout::operands_in, crate::specs::Layout::regions_span_in, crate::specs::Layout::regions_in, crate::specs::Layout::attributes_span_in, crate::specs::Layout::attributes_in, crate::specs::Layout::arguments_span_in, crate::specs::Layout::arguments_in, crate::specs::Layout::operations_span_in, crate::specs::Layout::operations_in, crate::specs::Layout::blocks_span_in, crate::specs::Layout::blocks_in, crate::specs::Layout::functions_in, crate::specs::Layout::value_type_in, crate::specs::Layout::claim_flag_in, crate::specs::Layout::claim_in, crate::specs::Layout::form_in, crate::specs::Layout::kind_in, crate::specs::Layout::pointer_in, crate::specs::Layout::padded_in, crate::specs::Layout::sparse_in, crate::specs::Layout::rank_in, crate::specs::Layout::dims_in, crate::specs::Layout::name_in, crate::specs::Layout::attribute_form_in, crate::specs::Layout::numbers_span_in, crate::specs::Layout::numbers_in, crate::specs::Layout::absent_in, crate::specs::Sheet::fixed_flag_in, crate::specs::Sheet::fixed_count_in, crate::specs::Sheet::mode_mask_in, crate::specs::Sheet::contained_mask_in, crate::specs::Sheet::byte_width_in, crate::specs::Sheet::tile_flag_in, crate::specs::Sheet::tile_through_in))]

ghost use Rattle.std.specs.Prelude.{◌≡◌, ◌+◌, ◌*◌, ◌^◌, ◌<◌, Bool, cond, ltb, get_or, take};
ghost use Rattle.cells.specs.Cell.{span_at};
ghost use Rattle.tables.specs.Layout.{counted_cell, counted_span};
ghost use Rattle.tables.specs.Tables.{cut, opcode, result_types_span, result_types, operands_span, operands, regions_span, regions, attributes_span, arguments_span, arguments, operations_span, operations, blocks_span, blocks, functions, value_type, claim_flag, claim, type_form, type_kind, type_pointer, type_padded, type_sparse, type_rank, type_dims, attribute_name, attribute_form, numbers_span, attribute_numbers, attribute_absent};
ghost use Rattle.tables.specs.Layout.{attributes_in};
ghost use Rattle.tables.specs.Sheet.{fixed_flag_in, fixed_count_in, mode_mask_in, contained_mask_in, byte_width_in, tile_flag_in, tile_through_in};
ghost use Rattle.tables.specs.Sizes.{cut_counts};
ghost use Rattle.tables.specs.Answer.{numbers_of};

use cells::{Span, Word};
use std::marker::Model;

// How many entries a table may have.
pub const MAX_TYPES: u64 = 1024;

pub const MAX_VALUES: u64 = 4096;

pub const MAX_OPERATIONS: u64 = 2048;

pub const MAX_ATTRIBUTES: u64 = 4096;

pub const MAX_BLOCKS: u64 = 512;

pub const MAX_REGIONS: u64 = 512;

pub const MAX_FUNCTIONS: u64 = 64;

pub const MAX_ENTRIES: u64 = 8192;

pub const MAX_RANK: u64 = 8;

pub const MAX_DEPTH: u64 = 32;

pub const MAX_TEXT: u64 = 65536;

// How many cells a row of each table has.
pub const TYPE_CELLS: u64 = 16;

pub const VALUE_CELLS: u64 = 4;

pub const OPERATION_CELLS: u64 = 16;

pub const ATTRIBUTE_CELLS: u64 = 8;

pub const BLOCK_CELLS: u64 = 4;

pub const REGION_CELLS: u64 = 2;

pub const FUNCTION_CELLS: u64 = 1;

pub const SHEET_CELLS: u64 = 320;

// The tables' numbers in code 1.
pub const TYPE_TABLE: u64 = 1;

pub const VALUE_TABLE: u64 = 2;

pub const OPERATION_TABLE: u64 = 3;

pub const ATTRIBUTE_TABLE: u64 = 4;

pub const BLOCK_TABLE: u64 = 5;

pub const REGION_TABLE: u64 = 6;

pub const FUNCTION_TABLE: u64 = 7;

pub const SHEET_TABLE: u64 = 8;

// How many entries of each table count.
#[derive(Clone, Copy)]
pub struct Counts {
    pub types: u64,
    pub values: u64,
    pub operations: u64,
    pub attributes: u64,
    pub blocks: u64,
    pub regions: u64,
    pub functions: u64,
}

// What a module is for: the minor version (4 is 13.4) and the sm number.
#[derive(Clone, Copy)]
pub struct Target {
    pub version: u64,
    pub sm: u64,
}

// The declared result that a value claims to be.
#[derive(Clone, Copy)]
pub struct Claim {
    pub operation: u64,
    pub index: u64,
}

// Where a value is defined: a block and a position, an operation and a result, or nowhere.
#[derive(Clone, Copy)]
pub enum Place {
    Argument(u64, u64),
    Result(u64, u64),
    Nowhere,
}

// The refusals, in the order of their codes, each with its id and detail.
#[derive(Clone, Copy)]
pub enum Refusal {
    OutOfRange { table: u64, entry: u64 },
    ListedTwice { id: u64, list: u64 },
    TooDeep { operation: u64 },
    DefinedTwice { value: u64 },
    NotVisible { operation: u64, operand: u64 },
    ResultCount { operation: u64, count: u64 },
    NoValue { operation: u64, result: u64 },
    NoNumber { operation: u64, operand: u64 },
    VersionLow { operation: u64, feature: u64 },
    ArchitectureNot { operation: u64, feature: u64 },
    RuleBroken { operation: u64, reason: u64 },
    ProductLeaves { operation: u64 },
    TooShort { needed: u64 },
    NotReadable { operation: u64, place: u64 },
    NotInForm { line: u64, field: u64 },
    NoTarget,
}

// Accepted, or the first refusal.
pub type Answer = Result<(), Refusal>;

// What is printed of a refusal.
#[derive(Clone, Copy)]
pub struct Numbers {
    pub code: u64,
    pub id: u64,
    pub detail: u64,
}

pub fn numbers_of(refusal: Refusal) -> Numbers
    ensures { result ≡ numbers_of refusal }
{
    match refusal {
        Refusal::OutOfRange { table, entry } => Numbers {
            code: 1,
            id: table,
            detail: entry,
        },
        Refusal::ListedTwice { id, list } => Numbers {
            code: 2,
            id,
            detail: list,
        },
        Refusal::TooDeep { operation } => Numbers {
            code: 3,
            id: operation,
            detail: 0,
        },
        Refusal::DefinedTwice { value } => Numbers {
            code: 4,
            id: value,
            detail: 0,
        },
        Refusal::NotVisible { operation, operand } => Numbers {
            code: 5,
            id: operation,
            detail: operand,
        },
        Refusal::ResultCount { operation, count } => Numbers {
            code: 6,
            id: operation,
            detail: count,
        },
        Refusal::NoValue { operation, result } => Numbers {
            code: 7,
            id: operation,
            detail: result,
        },
        Refusal::NoNumber { operation, operand } => Numbers {
            code: 8,
            id: operation,
            detail: operand,
        },
        Refusal::VersionLow { operation, feature } => Numbers {
            code: 9,
            id: operation,
            detail: feature,
        },
        Refusal::ArchitectureNot { operation, feature } => Numbers {
            code: 10,
            id: operation,
            detail: feature,
        },
        Refusal::RuleBroken { operation, reason } => Numbers {
            code: 11,
            id: operation,
            detail: reason,
        },
        Refusal::ProductLeaves { operation } => Numbers {
            code: 12,
            id: operation,
            detail: 0,
        },
        Refusal::TooShort { needed } => Numbers {
            code: 13,
            id: 0,
            detail: needed,
        },
        Refusal::NotReadable { operation, place } => Numbers {
            code: 14,
            id: operation,
            detail: place,
        },
        Refusal::NotInForm { line, field } => Numbers {
            code: 15,
            id: line,
            detail: field,
        },
        Refusal::NoTarget => Numbers {
            code: 16,
            id: 0,
            detail: 0,
        },
    }
}

// A cell of an entry that counts, 0 of any other.
fn counted<T: Word>(s: &[T], count: u64, width: u64, row: u64, column: u64) -> u64
    ensures { result ≡ cond (ltb row count) (T.number (get_or s.now (row * width + column) T.zero)) 0 }
{
    if row < count {
        cells::cell(s, width, row, column)
    } else {
        0
    }
}

// The span of a list of an entry that counts, an empty one of any other.
fn counted_span(s: &[u32], count: u64, width: u64, row: u64, column: u64) -> Span
    ensures { result ≡ counted_span count width s.now row column }
{
    if row < count {
        return cells::span_at(s, width, row, column);
    }
    Span { start: 0, len: 0 }
}

// The lent tables, and how many entries of each count. Whatever is lent, each question has its answer. What is handed out of types lives as
// long as these, a list as long as the list entries, whatever else was lent.
#[derive(Drop)]
pub struct Tables<'a, 't, 'l> {
    types: &'t [u64],
    values: &'a [u64],
    operations: &'a [u32],
    attributes: &'a [u32],
    blocks: &'a [u32],
    regions: &'a [u32],
    functions: &'a [u32],
    entries: &'l [u64],
    counts: Counts,
}

impl<'a, 't, 'l> Model for Tables<'a, 't, 'l> {
    ghost use Rattle.tables.specs.Tables.{Tables};

    ghost Value = { Tables };

    ghost view = { λ a. record { t = a.types.now; v = a.values.now; o = a.operations.now; a = a.attributes.now; b = a.blocks.now; r = a.regions.now; f = a.functions.now; l = a.entries.now; counts = a.counts } };
}

impl<'a, 't, 'l> Tables<'a, 't, 'l> {
    // The tables T, V, O, A, B, R, F and the list entries.
    pub fn new(
        types: &'t [u64],
        values: &'a [u64],
        operations: &'a [u32],
        attributes: &'a [u32],
        blocks: &'a [u32],
        regions: &'a [u32],
        functions: &'a [u32],
        entries: &'l [u64],
        counts: Counts,
    ) -> Tables<'a, 't, 'l>
        ensures { result ≡ record { t = types.now; v = values.now; o = operations.now; a = attributes.now; b = blocks.now; r = regions.now; f = functions.now; l = entries.now; counts = counts } }
    {
        Tables {
            types,
            values,
            operations,
            attributes,
            blocks,
            regions,
            functions,
            entries,
            counts,
        }
    }

    pub fn counts(&self) -> Counts
        ensures { result ≡ self.now.counts }
    {
        self.counts
    }

    // The cells of each table as they were lent, and the list entries.
    pub fn type_cells(&self) -> &'t [u64]
        ensures { result.now ≡ self.now.t }
    {
        self.types
    }

    pub fn value_cells(&self) -> &'a [u64]
        ensures { result.now ≡ self.now.v }
    {
        self.values
    }

    pub fn operation_cells(&self) -> &'a [u32]
        ensures { result.now ≡ self.now.o }
    {
        self.operations
    }

    pub fn attribute_cells(&self) -> &'a [u32]
        ensures { result.now ≡ self.now.a }
    {
        self.attributes
    }

    pub fn block_cells(&self) -> &'a [u32]
        ensures { result.now ≡ self.now.b }
    {
        self.blocks
    }

    pub fn region_cells(&self) -> &'a [u32]
        ensures { result.now ≡ self.now.r }
    {
        self.regions
    }

    pub fn function_cells(&self) -> &'a [u32]
        ensures { result.now ≡ self.now.f }
    {
        self.functions
    }

    pub fn entries(&self) -> &'l [u64]
        ensures { result.now ≡ self.now.l }
    {
        self.entries
    }

    // The same tables, with counts that no size is passed by.
    pub fn cut(&self) -> Tables<'a, 't, 'l>
        ensures { result ≡ cut self.now }
    {
        Tables {
            types: self.types,
            values: self.values,
            operations: self.operations,
            attributes: self.attributes,
            blocks: self.blocks,
            regions: self.regions,
            functions: self.functions,
            entries: self.entries,
            counts: cut_counts(self.counts),
        }
    }

    // A column of a row, and the list that stands in a column and the next.
    fn operation_list(&self, operation: u64, column: u64) -> Span
        ensures { result ≡ counted_span self.now.counts.operations 16 self.now.o operation column }
    {
        counted_span(
            self.operations,
            self.counts.operations,
            OPERATION_CELLS,
            operation,
            column,
        )
    }

    fn block_list(&self, block: u64, column: u64) -> Span
        ensures { result ≡ counted_span self.now.counts.blocks 4 self.now.b block column }
    {
        counted_span(self.blocks, self.counts.blocks, BLOCK_CELLS, block, column)
    }

    fn value_cell(&self, value: u64, column: u64) -> u64
        ensures { result ≡ counted_cell self.now.counts.values 4 self.now.v value column }
    {
        counted(self.values, self.counts.values, VALUE_CELLS, value, column)
    }

    fn type_cell(&self, id: u64, column: u64) -> u64
        ensures { result ≡ counted_cell self.now.counts.types 16 self.now.t id column }
    {
        counted(self.types, self.counts.types, TYPE_CELLS, id, column)
    }

    fn attribute_cell(&self, attribute: u64, column: u64) -> u64
        ensures { result ≡ counted_cell self.now.counts.attributes 8 self.now.a attribute column }
    {
        counted(
            self.attributes,
            self.counts.attributes,
            ATTRIBUTE_CELLS,
            attribute,
            column,
        )
    }

    // Of an operation.
    pub fn opcode(&self, operation: u64) -> u64
        ensures { result ≡ opcode self.now operation }
    {
        counted(
            self.operations,
            self.counts.operations,
            OPERATION_CELLS,
            operation,
            0,
        )
    }

    pub fn result_types_span(&self, operation: u64) -> Span
        ensures { result ≡ result_types_span self.now operation }
    {
        self.operation_list(operation, 1)
    }

    pub fn result_types(&self, operation: u64) -> &'l [u64]
        ensures { result.now ≡ result_types self.now operation }
    {
        cells::entries(self.entries, self.result_types_span(operation))
    }

    pub fn operands_span(&self, operation: u64) -> Span
        ensures { result ≡ operands_span self.now operation }
    {
        self.operation_list(operation, 3)
    }

    pub fn operands(&self, operation: u64) -> &'l [u64]
        ensures { result.now ≡ operands self.now operation }
    {
        cells::entries(self.entries, self.operands_span(operation))
    }

    pub fn regions_span(&self, operation: u64) -> Span
        ensures { result ≡ regions_span self.now operation }
    {
        self.operation_list(operation, 5)
    }

    pub fn regions(&self, operation: u64) -> &'l [u64]
        ensures { result.now ≡ regions self.now operation }
    {
        cells::entries(self.entries, self.regions_span(operation))
    }

    // Its attributes stand next to each other: the first, and how many.
    pub fn attributes_span(&self, operation: u64) -> Span
        ensures { result ≡ attributes_span self.now operation }
    {
        self.operation_list(operation, 7)
    }

    // The same, as far as the attributes go.
    pub fn attributes(&self, operation: u64) -> Span
        ensures rows { result ≡ attributes_in self.now.o self.now.counts operation }
        ensures fits { result.start + result.len < 2 ^ 64 }
    {
        let span = self.attributes_span(operation);
        let rest = self.counts.attributes.saturating_sub(span.start);
        Span {
            start: span.start,
            len: span.len.min(rest),
        }
    }

    // Of a block.
    pub fn arguments_span(&self, block: u64) -> Span
        ensures { result ≡ arguments_span self.now block }
    {
        self.block_list(block, 0)
    }

    pub fn arguments(&self, block: u64) -> &'l [u64]
        ensures { result.now ≡ arguments self.now block }
    {
        cells::entries(self.entries, self.arguments_span(block))
    }

    pub fn operations_span(&self, block: u64) -> Span
        ensures { result ≡ operations_span self.now block }
    {
        self.block_list(block, 2)
    }

    pub fn operations(&self, block: u64) -> &'l [u64]
        ensures { result.now ≡ operations self.now block }
    {
        cells::entries(self.entries, self.operations_span(block))
    }

    // Of a region.
    pub fn blocks_span(&self, region: u64) -> Span
        ensures { result ≡ blocks_span self.now region }
    {
        counted_span(self.regions, self.counts.regions, REGION_CELLS, region, 0)
    }

    pub fn blocks(&self, region: u64) -> &'l [u64]
        ensures { result.now ≡ blocks self.now region }
    {
        cells::entries(self.entries, self.blocks_span(region))
    }

    // The operations of the functions, as far as the lent cells go.
    pub fn functions(&self) -> &'a [u32]
        ensures { result.now ≡ functions self.now }
    {
        let count = self.counts.functions.min(self.functions.len() as u64);
        &self.functions[..count as usize]
    }

    // The operation of the function at a position.
    pub fn function(&self, position: u64) -> u64
        ensures { result ≡ get_or (functions self.now) position 0 }
    {
        counted(
            self.functions,
            self.counts.functions,
            FUNCTION_CELLS,
            position,
            0,
        )
    }

    // Of a value.
    pub fn value_type(&self, value: u64) -> u64
        ensures { result ≡ value_type self.now value }
    {
        self.value_cell(value, 0)
    }

    // Whether it claims a result: 1 where it does.
    pub fn claim_flag(&self, value: u64) -> u64
        ensures { result ≡ claim_flag self.now value }
    {
        self.value_cell(value, 1)
    }

    pub fn claim(&self, value: u64) -> Option<Claim>
        ensures { result ≡ claim self.now value }
    {
        if self.claim_flag(value) != 1 {
            return None;
        }
        let operation = self.value_cell(value, 2);
        let index = self.value_cell(value, 3);
        Some(Claim { operation, index })
    }

    // Of a type.
    pub fn type_form(&self, id: u64) -> u64
        ensures { result ≡ type_form self.now id }
    {
        self.type_cell(id, 0)
    }

    pub fn type_kind(&self, id: u64) -> u64
        ensures { result ≡ type_kind self.now id }
    {
        self.type_cell(id, 1)
    }

    // A token's pointer attribute counts as absent.
    pub fn type_pointer(&self, id: u64) -> u64
        ensures { result ≡ type_pointer self.now id }
    {
        if self.type_form(id) == 0 {
            return 0;
        }
        self.type_cell(id, 2)
    }

    pub fn type_padded(&self, id: u64) -> u64
        ensures { result ≡ type_padded self.now id }
    {
        self.type_cell(id, 3)
    }

    pub fn type_sparse(&self, id: u64) -> u64
        ensures { result ≡ type_sparse self.now id }
    {
        self.type_cell(id, 4)
    }

    pub fn type_rank(&self, id: u64) -> u64
        ensures { result ≡ type_rank self.now id }
    {
        self.type_cell(id, 5)
    }

    // As many dims as the rank says, and no more than eight.
    pub fn type_dims(&self, id: u64) -> &'t [u64]
        ensures { result.now ≡ type_dims self.now id }
    {
        cells::part_at(
            self.types,
            TYPE_CELLS,
            id,
            8,
            self.type_rank(id).min(MAX_RANK),
        )
    }

    // Of an attribute.
    pub fn attribute_name(&self, attribute: u64) -> u64
        ensures { result ≡ attribute_name self.now attribute }
    {
        self.attribute_cell(attribute, 0)
    }

    pub fn attribute_form(&self, attribute: u64) -> u64
        ensures { result ≡ attribute_form self.now attribute }
    {
        self.attribute_cell(attribute, 1)
    }

    pub fn attribute_numbers_span(&self, attribute: u64) -> Span
        ensures { result ≡ numbers_span self.now attribute }
    {
        counted_span(
            self.attributes,
            self.counts.attributes,
            ATTRIBUTE_CELLS,
            attribute,
            2,
        )
    }

    pub fn attribute_numbers(&self, attribute: u64) -> &'l [u64]
        ensures { result.now ≡ attribute_numbers self.now attribute }
    {
        cells::entries(self.entries, self.attribute_numbers_span(attribute))
    }

    // Which of its numbers are absent: bit k for number k.
    pub fn attribute_absent(&self, attribute: u64) -> u64
        ensures { result ≡ attribute_absent self.now attribute }
    {
        self.attribute_cell(attribute, 4)
    }
}

// Of the sheet.
// Whether the sheet fixes an opcode's count: 1 where it does.
pub fn fixed_flag(sheet: &[u64], opcode: u64) -> u64
    ensures { result ≡ fixed_flag_in sheet.now opcode }
{
    counted(sheet, 105, 2, opcode, 0)
}

pub fn fixed_count(sheet: &[u64], opcode: u64) -> Option<u64>
    ensures { result ≡ fixed_count_in sheet.now opcode }
{
    if fixed_flag(sheet, opcode) != 1 {
        return None;
    }
    Some(counted(sheet, 105, 2, opcode, 1))
}

pub fn mode_mask(sheet: &[u64], mode: u64) -> u64
    ensures { result ≡ mode_mask_in sheet.now mode }
{
    counted(sheet, 16, 1, mode, 256)
}

pub fn contained_mask(sheet: &[u64], kind: u64) -> u64
    ensures { result ≡ contained_mask_in sheet.now kind }
{
    counted(sheet, 16, 1, kind, 272)
}

pub fn byte_width(sheet: &[u64], kind: u64) -> u64
    ensures { result ≡ byte_width_in sheet.now kind }
{
    counted(sheet, 16, 1, kind, 288)
}

// 1 where a tile is seen through a pointer attribute.
pub fn tile_flag(sheet: &[u64]) -> u64
    ensures { result ≡ tile_flag_in sheet.now }
{
    cells::at(sheet, 304)
}

pub fn tile_through(sheet: &[u64]) -> bool
    ensures { result ≡ tile_through_in sheet.now }
{
    tile_flag(sheet) == 1
}

// Counts that no size is passed by.
pub fn cut_counts(n: Counts) -> Counts
    ensures { result ≡ cut_counts n }
{
    Counts {
        types: n.types.min(MAX_TYPES),
        values: n.values.min(MAX_VALUES),
        operations: n.operations.min(MAX_OPERATIONS),
        attributes: n.attributes.min(MAX_ATTRIBUTES),
        blocks: n.blocks.min(MAX_BLOCKS),
        regions: n.regions.min(MAX_REGIONS),
        functions: n.functions.min(MAX_FUNCTIONS),
    }
}
