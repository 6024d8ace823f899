// One line of each kind of the house text, judged by its leftmost bad field. Lists go straight into the lent list entries.
#![tactic(auto)]

ghost use Rattle.std.specs.Prelude.{◌≡◌, ◌+◌, ◌-◌, ◌<◌, take, drop, OnOk};
ghost use Rattle.std.specs.Option.{ok_or};
ghost use Rattle.std.proofs.lemmas.List.Edits.{sets};
ghost use Rattle.fields.specs.Cut.{end_from, split, nth};
ghost use Rattle.fields.specs.Taken.{part_from, taken};
ghost use Rattle.lines.specs.Field.{integer64, list_of, or_absent};
ghost use Rattle.lines.specs.Line.{header_line, type_line, value_line, single, three, two, function_line};
ghost use Rattle.lines.specs.Into.{number_in, left, good_of, count_of, list_into};
ghost use Rattle.lines.specs.Place.{field_start};
ghost use Rattle.lines.specs.Answer.{bad_field, header_of, type_of, dim_width, value_of, function_of, operation_into, form_in, slot_of, held_into, whole_into, numbers_into, attribute_into, block_into, region_into};

use fields::Taken;
use tables::Claim;

// The greatest id and the greatest number, and half of the numbers of 32 and of 64 bits.
const MAX_ID: u64 = (1 << 32) - 1;

const MAX_64: u64 = u64::MAX;

const HALF_32: u64 = 1 << 31;

const HALF_64: u64 = 1 << 63;

// The numbers that a field may hold: 0 to a bound, or as many below 0 as from 0 on, as two's complement bits.
#[derive(Clone, Copy)]
pub enum Width {
    Unsigned(u64),
    Signed(u64),
}

// The leftmost bad field of a line, counted from 1.
#[derive(Clone, Copy)]
pub struct BadField {
    pub field: u64,
}

#[derive(Clone, Copy)]
pub struct HeaderLine {
    pub version: u64,
    pub sm: u64,
}

// Dims past the eighth count in the rank and are not kept.
#[derive(Clone, Copy)]
pub struct TypeLine {
    pub form: u64,
    pub kind: u64,
    pub pointer: u64,
    pub padded: u64,
    pub sparse: u64,
    pub rank: u64,
    pub dims: [u64; 8],
}

#[derive(Clone, Copy)]
pub struct ValueLine {
    pub type_id: u64,
    pub claim: Option<Claim>,
}

// Of each list its length; the numbers themselves stand in the entries.
#[derive(Clone, Copy)]
pub struct OperationLine {
    pub opcode: u64,
    pub results: u64,
    pub operands: u64,
    pub regions: u64,
}

#[derive(Clone, Copy)]
pub struct AttributeLine {
    pub name: u64,
    pub form: u64,
    pub count: u64,
    pub missing: u64,
}

#[derive(Clone, Copy)]
pub struct BlockLine {
    pub arguments: u64,
    pub operations: u64,
}

// The numbers of an attribute: how many, and which of them are absent, bit k for number k.
#[derive(Clone, Copy)]
pub struct Filled {
    pub count: u64,
    pub missing: u64,
}

// A number that may be absent: 0 and its bit where it is.
#[derive(Clone, Copy)]
pub struct Slot {
    pub value: u64,
    pub missing: u64,
}

pub fn number_in(field: &[u8], width: Width) -> Option<u64>
    ensures { result ≡ number_in width field.now }
{
    match width {
        Width::Unsigned(max) => fields::unsigned(field, max),
        Width::Signed(half) => fields::signed(field, half),
    }
}

// The number in the part that starts at a place and ends before a byte.
#[inline(always)]
fn number_from(s: &[u8], place: u64, byte: u8, width: Width) -> Option<Taken>
    ensures { result ≡ taken (number_in width (part_from byte place s.now)) (end_from byte place s.now + 1) }
{
    match width {
        Width::Unsigned(max) => fields::unsigned_from(s, place, byte, max),
        Width::Signed(half) => fields::signed_from(s, place, byte, half),
    }
}

// A row written from a place on, as far as the cells go.
pub fn put_row<T: Copy>(table: &mut [T], at: u64, row: &[T])
    ensures { table.new ≡ sets table.old at row.now }
{
    for (i, &x) in row.iter().enumerate() {
        cells::put(table, at.saturating_add(i as u64), x);
    }
}

// The numbers of a list, written from a place on as far as the entries go, in one pass; and their count.
pub fn list_into(field: &[u8], width: Width, at: u64, l: &mut [u64]) -> Option<u64>
    ensures { left result l.new ≡ list_into (number_in width) at field.now l.old }
{
    if field.is_empty() {
        return Some(0);
    }
    // Past the end of the entries any place is as good as the end, and no sum wraps.
    let start = at.min(l.len() as u64);
    let mut n: u64 = 0;
    let mut p: u64 = 0;
    while p <= field.len() as u64 {
        let item = number_from(field, p, b',', width)?;
        cells::put(l, start + n, item.number);
        n += 1;
        p = item.next;
    }
    Some(n)
}

// A line, read field by field from left to right: how many fields were read, and where the next one starts. Its methods are inlined, so that
// each line knows the widths that it asks.
#[derive(Clone, Copy)]
struct Cursor<'a> {
    line: &'a [u8],
    read: u64,
    place: u64,
    ghost stands: { place ≡ field_start read line.now },
}

impl<'a> Cursor<'a> {
    // Past the tag, which is field 1.
    #[inline(always)]
    fn new(line: &'a [u8]) -> Cursor<'a>
        ensures line { result.line ≡ line.entry }
        ensures read { result.read ≡ 1 }
    {
        Cursor {
            line,
            read: 1,
            place: fields::find(line, 0, b'\t') + 1,
        }
    }

    // The next field.
    #[inline(always)]
    fn field(&mut self) -> &'a [u8]
        requires { self.old.read < 7 }
        ensures field { result.now ≡ nth self.old.read (split 9 self.old.line.now) }
        ensures line { self.new.line ≡ self.old.line }
        ensures read { self.new.read ≡ self.old.read + 1 }
    {
        let end = fields::find(self.line, self.place, b'\t');
        let field = fields::between(self.line, self.place, end);
        *self = Cursor {
            line: self.line,
            read: self.read + 1,
            place: end + 1,
        };
        field
    }

    // The number that the next field holds.
    #[inline(always)]
    fn number(&mut self, width: Width) -> Result<u64, BadField>
        requires { self.old.read < 7 }
        ensures number { result ≡ ok_or (number_in width (nth self.old.read (split 9 self.old.line.now))) (bad_field (self.old.read + 1)) }
        ensures line { self.new.line ≡ self.old.line }
        ensures read { OnOk result (self.new.read ≡ self.old.read + 1) }
    {
        let field = self.read + 1;
        let taken = number_from(self.line, self.place, b'\t', width).ok_or(BadField { field })?;
        *self = Cursor {
            line: self.line,
            read: field,
            place: taken.next,
        };
        Ok(taken.number)
    }

    // The list that the next field holds, written from a place of the entries on; and its length.
    #[inline(always)]
    fn list(&mut self, width: Width, at: u64, l: &mut [u64]) -> Result<u64, BadField>
        requires { self.old.read < 7 }
        ensures list { result ≡ ok_or (count_of (list_of (number_in width) (nth self.old.read (split 9 self.old.line.now)))) (bad_field (self.old.read + 1)) }
        ensures written { l.new ≡ sets l.old at (good_of (number_in width) (nth self.old.read (split 9 self.old.line.now))) }
        ensures line { self.new.line ≡ self.old.line }
        ensures read { self.new.read ≡ self.old.read + 1 }
    {
        let list = self.field();
        list_into(list, width, at, l).ok_or(BadField { field: self.read })
    }
}

pub fn header_line(line: &[u8]) -> Result<HeaderLine, BadField>
    ensures { result ≡ header_of (header_line (split 9 line.now)) }
{
    let mut rest = Cursor::new(line);
    if rest.number(Width::Signed(HALF_64))? != 1 {
        return Err(BadField { field: 2 });
    }
    let version = rest.number(Width::Signed(HALF_64))?;
    let sm = rest.number(Width::Signed(HALF_64))?;
    Ok(HeaderLine { version, sm })
}

fn dim_width(form: u64) -> Width
    ensures { result ≡ dim_width form }
{
    if form < 4 {
        return Width::Signed(HALF_64);
    }
    Width::Signed(HALF_32)
}

pub fn type_line(line: &[u8]) -> Result<TypeLine, BadField>
    ensures { result ≡ type_of (type_line (split 9 line.now)) }
{
    let mut rest = Cursor::new(line);
    let form = rest.number(Width::Unsigned(6))?;
    let kind = rest.number(Width::Unsigned(15))?;
    let pointer = rest.number(Width::Unsigned(MAX_ID))?;
    let padded = rest.number(Width::Unsigned(1))?;
    let sparse = rest.number(Width::Signed(HALF_32))?;
    let mut dims = [0u64; 8];
    let rank = rest.list(dim_width(form), 0, &mut dims)?;
    Ok(TypeLine {
        form,
        kind,
        pointer,
        padded,
        sparse,
        rank,
        dims,
    })
}

pub fn value_line(line: &[u8]) -> Result<ValueLine, BadField>
    ensures { result ≡ value_of (value_line (split 9 line.now)) }
{
    let mut rest = Cursor::new(line);
    let type_id = rest.number(Width::Unsigned(MAX_ID))?;
    let owner = rest.field();
    let result_of = rest.field();
    if owner.is_empty() {
        if result_of.is_empty() {
            return Ok(ValueLine {
                type_id,
                claim: None,
            });
        }
        return Err(BadField { field: 3 });
    }
    let operation = number_in(owner, Width::Unsigned(MAX_ID)).ok_or(BadField { field: 3 })?;
    let index = number_in(result_of, Width::Signed(HALF_64)).ok_or(BadField { field: 4 })?;
    Ok(ValueLine {
        type_id,
        claim: Some(Claim { operation, index }),
    })
}

// The operation of a function.
pub fn function_line(line: &[u8]) -> Result<u64, BadField>
    ensures { result ≡ function_of (function_line (split 9 line.now)) }
{
    Cursor::new(line).number(Width::Unsigned(MAX_ID))
}

pub fn operation_line(line: &[u8], at: u64, l: &mut [u64]) -> Result<OperationLine, BadField>
    ensures { left result l.new ≡ operation_into at (split 9 line.now) l.old }
{
    let mut rest = Cursor::new(line);
    let opcode = rest.number(Width::Unsigned(104))?;
    let results = rest.list(Width::Unsigned(MAX_ID), at, l)?;
    let second = at.saturating_add(results);
    let operands = rest.list(Width::Unsigned(MAX_ID), second, l)?;
    let third = second.saturating_add(operands);
    let regions = rest.list(Width::Unsigned(MAX_ID), third, l)?;
    Ok(OperationLine {
        opcode,
        results,
        operands,
        regions,
    })
}

// The form of a letter, if it names one.
fn form_of(letter: &[u8]) -> Option<u64>
    ensures { result ≡ form_in letter.now }
{
    if letter.len() != 1 {
        return None;
    }
    let form = match letter[0] {
        b'i' => names::INTEGER,
        b'b' => names::BOOL,
        b'a' => names::INTEGERS,
        b'z' => names::BOOLS,
        b'p' => names::PERMUTATION_LIST,
        b'd' => names::DIVISOR,
        b's' => names::SIZES,
        b'r' => names::ENDPOINTS,
        b'x' => names::OTHER,
        _ => return None,
    };
    Some(form)
}

fn slot_of(item: &[u8], bit: u64) -> Option<Slot>
    ensures { result ≡ slot_of bit (or_absent integer64 item.now) }
{
    if item.is_empty() {
        return Some(Slot {
            value: 0,
            missing: bit,
        });
    }
    let value = number_in(item, Width::Signed(HALF_64))?;
    Some(Slot { value, missing: 0 })
}

fn single_into(field: &[u8], width: Width, at: u64, l: &mut [u64]) -> Option<Filled>
    ensures { left result l.new ≡ held_into at (single (number_in width field.now)) l.old }
{
    let n = number_in(field, width)?;
    cells::put(l, at, n);
    Some(Filled {
        count: 1,
        missing: 0,
    })
}

fn whole_into(field: &[u8], width: Width, at: u64, l: &mut [u64]) -> Option<Filled>
    ensures { left result l.new ≡ whole_into (number_in width) at field.now l.old }
{
    let count = list_into(field, width, at, l)?;
    Some(Filled { count, missing: 0 })
}

// A divisor, and two numbers that may be absent.
fn divisor_into(field: &[u8], at: u64, l: &mut [u64]) -> Option<Filled>
    ensures { left result l.new ≡ held_into at (three (split 44 field.now)) l.old }
{
    if fields::count(field, b',') != 3 {
        return None;
    }
    let divisor = number_in(fields::part(field, b',', 0), Width::Unsigned(MAX_64))?;
    let every = slot_of(fields::part(field, b',', 1), 2)?;
    let along = slot_of(fields::part(field, b',', 2), 4)?;
    put_row(l, at, &[divisor, every.value, along.value]);
    Some(Filled {
        count: 3,
        missing: every.missing + along.missing,
    })
}

// Two numbers that may be absent.
fn endpoints_into(field: &[u8], at: u64, l: &mut [u64]) -> Option<Filled>
    ensures { left result l.new ≡ held_into at (two (split 44 field.now)) l.old }
{
    if fields::count(field, b',') != 2 {
        return None;
    }
    let low = slot_of(fields::part(field, b',', 0), 1)?;
    let high = slot_of(fields::part(field, b',', 1), 2)?;
    put_row(l, at, &[low.value, high.value]);
    Some(Filled {
        count: 2,
        missing: low.missing + high.missing,
    })
}

// The list of a form.
fn numbers_into(field: &[u8], form: u64, at: u64, l: &mut [u64]) -> Option<Filled>
    ensures { left result l.new ≡ numbers_into form at field.now l.old }
{
    match form {
        names::INTEGER => single_into(field, Width::Signed(HALF_64), at, l),
        names::BOOL => single_into(field, Width::Unsigned(1), at, l),
        names::INTEGERS => whole_into(field, Width::Signed(HALF_64), at, l),
        names::BOOLS => whole_into(field, Width::Unsigned(1), at, l),
        names::PERMUTATION_LIST => whole_into(field, Width::Signed(HALF_32), at, l),
        names::DIVISOR => divisor_into(field, at, l),
        names::SIZES => whole_into(field, Width::Signed(HALF_64), at, l),
        names::ENDPOINTS => endpoints_into(field, at, l),
        _ if field.is_empty() => Some(Filled {
            count: 0,
            missing: 0,
        }),
        _ => None,
    }
}

pub fn attribute_line(line: &[u8], at: u64, l: &mut [u64]) -> Result<AttributeLine, BadField>
    ensures { left result l.new ≡ attribute_into at (split 9 line.now) l.old }
{
    let mut rest = Cursor::new(line);
    let name = rest.field();
    if name.is_empty() {
        return Err(BadField { field: 2 });
    }
    let form = form_of(rest.field()).ok_or(BadField { field: 3 })?;
    let numbers = numbers_into(rest.field(), form, at, l).ok_or(BadField { field: 4 })?;
    Ok(AttributeLine {
        name: names::name_number(name),
        form,
        count: numbers.count,
        missing: numbers.missing,
    })
}

pub fn block_line(line: &[u8], at: u64, l: &mut [u64]) -> Result<BlockLine, BadField>
    ensures { left result l.new ≡ block_into at (split 9 line.now) l.old }
{
    let mut rest = Cursor::new(line);
    let arguments = rest.list(Width::Unsigned(MAX_ID), at, l)?;
    let second = at.saturating_add(arguments);
    let operations = rest.list(Width::Unsigned(MAX_ID), second, l)?;
    Ok(BlockLine {
        arguments,
        operations,
    })
}

// How many blocks a region has.
pub fn region_line(line: &[u8], at: u64, l: &mut [u64]) -> Result<u64, BadField>
    ensures { left result l.new ≡ region_into at (split 9 line.now) l.old }
{
    Cursor::new(line).list(Width::Unsigned(MAX_ID), at, l)
}
