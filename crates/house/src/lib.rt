// One line of the house text after another, into the lent tables.
#![tactic(auto)]

ghost use Rattle.std.specs.Prelude.{◌≡◌, suc, ◌+◌, leb, ltb, ◌&&◌, ◌||◌};
ghost use Rattle.fields.specs.Cut.{split};
ghost use Rattle.lines.specs.Line.{header_line};
ghost use Rattle.tables.specs.Tables.{lent};
ghost use Rattle.house.specs.House.{no_counts, tag_of, fields_of, in_order, judged, line_of};
ghost use Rattle.house.specs.Step.{kind_at, tag_in, kind_of, next, first_reading, refusing, table_of, count_of, counted, phase_of, advance_of, header_next, state_of, settled};
ghost use Rattle.tables.specs.declared.Refusal.TheVariants.{OutOfRange, NotInForm};

use lines::{BadField, HeaderLine};
use stores::Unstored;
use tables::{Answer, Counts, Refusal};

// Where a reader stands, beside the tables: the phase, the lines and bytes before this line, the list entries in use, the header, the counts
// and the first refusal.
#[derive(Clone, Copy)]
pub struct Reading {
    pub phase: u64,
    pub lines: u64,
    pub bytes: u64,
    pub entries: u64,
    pub version: u64,
    pub sm: u64,
    pub counts: Counts,
    pub answer: Answer,
}

// The kinds of line, in the order of their tables' numbers.
#[derive(Clone, Copy)]
pub enum Kind {
    Header,
    Type,
    Value,
    Operation,
    Attribute,
    Block,
    Region,
    Function,
}

// The kind that a tag names.
fn tag_of(tag: &[u8]) -> Option<Kind>
    ensures { result ≡ kind_at (tag_of tag.now) }
{
    match tag {
        [b't', b'i', b'l', b'e'] => Some(Kind::Header),
        [b'T'] => Some(Kind::Type),
        [b'V'] => Some(Kind::Value),
        [b'O'] => Some(Kind::Operation),
        [b'A'] => Some(Kind::Attribute),
        [b'B'] => Some(Kind::Block),
        [b'R'] => Some(Kind::Region),
        [b'F'] => Some(Kind::Function),
        _ => None,
    }
}

// How many fields a line of a kind has, the tag among them.
fn fields_of(kind: Kind) -> u64
    ensures { result ≡ fields_of (tag_in kind) }
{
    match kind {
        Kind::Header => 4,
        Kind::Type => 7,
        Kind::Value => 4,
        Kind::Operation => 5,
        Kind::Attribute => 4,
        Kind::Block => 3,
        Kind::Region => 2,
        Kind::Function => 2,
    }
}

fn next(x: u64) -> u64
    ensures { result ≡ next x }
{
    if x < 4294967296 { x + 1 } else { x }
}

// Nothing read, but for the answer.
pub fn first_reading(answer: Answer) -> Reading
    ensures { result ≡ first_reading answer }
{
    let counts = Counts {
        types: 0,
        values: 0,
        operations: 0,
        attributes: 0,
        blocks: 0,
        regions: 0,
        functions: 0,
    };
    Reading {
        phase: 0,
        lines: 0,
        bytes: 0,
        entries: 0,
        version: 0,
        sm: 0,
        counts,
        answer,
    }
}

// Nothing read, but for the refusal.
pub fn refusing(refusal: Refusal) -> Reading
    ensures { result ≡ refusing refusal }
{
    first_reading(Err(refusal))
}

// A bad field of the next line.
fn bad_line(s: Reading, field: u64) -> Reading
    ensures { result ≡ refusing (NotInForm (next s.lines) field) }
{
    refusing(Refusal::NotInForm {
        line: next(s.lines),
        field,
    })
}

// The table of a kind is full.
fn full(n: Counts, kind: Kind) -> Refusal
    ensures { result ≡ OutOfRange (table_of kind) (count_of n kind) }
{
    let (table, entry) = match kind {
        Kind::Header => (0, n.functions),
        Kind::Type => (tables::TYPE_TABLE, n.types),
        Kind::Value => (tables::VALUE_TABLE, n.values),
        Kind::Operation => (tables::OPERATION_TABLE, n.operations),
        Kind::Attribute => (tables::ATTRIBUTE_TABLE, n.attributes),
        Kind::Block => (tables::BLOCK_TABLE, n.blocks),
        Kind::Region => (tables::REGION_TABLE, n.regions),
        Kind::Function => (tables::FUNCTION_TABLE, n.functions),
    };
    Refusal::OutOfRange { table, entry }
}

// One entry more in the table of a kind.
fn counted(n: Counts, kind: Kind) -> Counts
    ensures { result ≡ counted n kind }
{
    match kind {
        Kind::Header => n,
        Kind::Type => Counts {
            types: next(n.types),
            ..n
        },
        Kind::Value => Counts {
            values: next(n.values),
            ..n
        },
        Kind::Operation => Counts {
            operations: next(n.operations),
            ..n
        },
        Kind::Attribute => Counts {
            attributes: next(n.attributes),
            ..n
        },
        Kind::Block => Counts {
            blocks: next(n.blocks),
            ..n
        },
        Kind::Region => Counts {
            regions: next(n.regions),
            ..n
        },
        Kind::Function => Counts {
            functions: next(n.functions),
            ..n
        },
    }
}

// The phase that a line of a kind leaves; an attribute leaves that of its operation.
fn phase_of(kind: Kind) -> u64
    ensures { result ≡ phase_of kind }
{
    match kind {
        Kind::Header => 0,
        Kind::Type => 1,
        Kind::Value => 2,
        Kind::Operation | Kind::Attribute => 3,
        Kind::Block => 4,
        Kind::Region => 5,
        Kind::Function => 6,
    }
}

// Whether a line of a kind may stand in a phase.
fn in_order(kind: Kind, phase: u64) -> bool
    ensures { result ≡ in_order (tag_in kind) phase }
{
    match kind {
        Kind::Header => phase == 0,
        Kind::Type => phase == 1,
        Kind::Value => 0 < phase && phase <= 2,
        Kind::Operation => 0 < phase && phase <= 3,
        Kind::Attribute => phase == 3,
        Kind::Block => 0 < phase && phase <= 4,
        Kind::Region => 0 < phase && phase <= 5,
        Kind::Function => 0 < phase && phase <= 6,
    }
}

// The kind of a line in a phase, or its bad field.
#[tactic(auto, unfolding(crate::specs::Step::kind_of))]
fn kind_of(line: &[u8], phase: u64) -> Result<Kind, BadField>
    ensures { result ≡ kind_of (split 9 line.now) phase }
{
    let Some(kind) = tag_of(fields::part(line, b'\t', 0)) else {
        return Err(BadField { field: 1 });
    };
    if fields::count(line, b'\t') != fields_of(kind) || !in_order(kind, phase) {
        return Err(BadField { field: 0 });
    }
    Ok(kind)
}

// The reading after a line of a table was stored.
#[tactic(auto, unfolding(crate::specs::Step::advance_of))]
fn advance(s: Reading, kind: Kind, end: u64, step: Result<u64, Unstored>) -> Reading
    ensures { result ≡ advance_of s kind end step }
{
    match step {
        Err(Unstored::Bad(field)) => bad_line(s, field),
        Err(Unstored::Full) => refusing(full(s.counts, kind)),
        Ok(entries) => Reading {
            phase: phase_of(kind),
            lines: next(s.lines),
            bytes: end,
            entries,
            counts: counted(s.counts, kind),
            answer: Ok(()),
            ..s
        },
    }
}

#[tactic(auto, unfolding(crate::specs::Step::header_next))]
fn header_next(line: &[u8], s: Reading, end: u64) -> Reading
    ensures { result ≡ header_next s end (header_line (split 9 line.now)) }
{
    match lines::header_line(line) {
        Err(BadField { field }) => bad_line(s, field),
        Ok(HeaderLine { version, sm }) => Reading {
            phase: 1,
            lines: next(s.lines),
            bytes: end,
            version,
            sm,
            answer: Ok(()),
            ..s
        },
    }
}

// Whether a line of len bytes reaches past the text, or the reading is one that no text reaches.
fn too_far(len: u64, bytes: u64, lines: u64, attributes: u64) -> bool
    ensures { result ≡ ltb 65536 (bytes + suc len) || (ltb 65536 lines || ltb 4096 attributes) }
{
    tables::MAX_TEXT.saturating_sub(bytes) <= len
        || tables::MAX_TEXT < lines
        || tables::MAX_ATTRIBUTES < attributes
}

// The reading after a line, LF left off, before a refusal zeroes the tables.
fn next_reading(
    line: &[u8],
    s: Reading,
    t: &mut [u64],
    v: &mut [u64],
    o: &mut [u32],
    a: &mut [u32],
    b: &mut [u32],
    r: &mut [u32],
    f: &mut [u32],
    l: &mut [u64],
) -> Reading
    ensures { settled (state_of result (lent t.new v.new o.new a.new b.new r.new f.new l.new no_counts)) ≡ judged (state_of s (lent t.old v.old o.old a.old b.old r.old f.old l.old no_counts)) line.now }
{
    let n = s.counts;
    let at = s.entries;
    let len = line.len() as u64;
    if too_far(len, s.bytes, s.lines, n.attributes) {
        return refusing(Refusal::OutOfRange { table: 0, entry: 0 });
    }
    let end = s.bytes + len + 1;
    match kind_of(line, s.phase) {
        Err(BadField { field }) => bad_line(s, field),
        Ok(Kind::Header) => header_next(line, s, end),
        Ok(Kind::Type) => {
            let step = stores::store_type(line, at, n.types, t);
            advance(s, Kind::Type, end, step)
        }
        Ok(Kind::Value) => {
            let step = stores::store_value(line, at, n.values, v);
            advance(s, Kind::Value, end, step)
        }
        Ok(Kind::Operation) => {
            let step = stores::store_operation(line, at, n.operations, n.attributes, o, l);
            advance(s, Kind::Operation, end, step)
        }
        Ok(Kind::Attribute) => {
            let step = stores::store_attribute(line, at, n.attributes, a, l);
            stores::count_attribute(o, n.operations.saturating_sub(1));
            advance(s, Kind::Attribute, end, step)
        }
        Ok(Kind::Block) => {
            let step = stores::store_block(line, at, n.blocks, b, l);
            advance(s, Kind::Block, end, step)
        }
        Ok(Kind::Region) => {
            let step = stores::store_region(line, at, n.regions, r, l);
            advance(s, Kind::Region, end, step)
        }
        Ok(Kind::Function) => {
            let step = stores::store_function(line, at, n.functions, f);
            advance(s, Kind::Function, end, step)
        }
    }
}

// A refusal zeroes all tables.
pub fn settle(
    s: Reading,
    t: &mut [u64],
    v: &mut [u64],
    o: &mut [u32],
    a: &mut [u32],
    b: &mut [u32],
    r: &mut [u32],
    f: &mut [u32],
    l: &mut [u64],
) -> Reading
    ensures { state_of result (lent t.new v.new o.new a.new b.new r.new f.new l.new no_counts) ≡ settled (state_of s (lent t.old v.old o.old a.old b.old r.old f.old l.old no_counts)) }
{
    match s.answer {
        Ok(()) => s,
        Err(refusal) => {
            cells::clear(t);
            cells::clear(v);
            cells::clear(o);
            cells::clear(a);
            cells::clear(b);
            cells::clear(r);
            cells::clear(f);
            cells::clear(l);
            refusing(refusal)
        }
    }
}

// One line, LF left off. After a refusal nothing more is taken.
pub fn take_line(
    line: &[u8],
    s: Reading,
    t: &mut [u64],
    v: &mut [u64],
    o: &mut [u32],
    a: &mut [u32],
    b: &mut [u32],
    r: &mut [u32],
    f: &mut [u32],
    l: &mut [u64],
) -> Reading
    ensures { state_of result (lent t.new v.new o.new a.new b.new r.new f.new l.new no_counts) ≡ line_of (state_of s (lent t.old v.old o.old a.old b.old r.old f.old l.old no_counts)) line.now }
{
    match s.answer {
        Err(_) => s,
        Ok(()) => {
            let next = next_reading(line, s, t, v, o, a, b, r, f, l);
            settle(next, t, v, o, a, b, r, f, l)
        }
    }
}
