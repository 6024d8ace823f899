// A rule sheet's text, line by line, into the lent sheet.
#![tactic(auto)]

ghost use Rattle.std.specs.Prelude.{◌≡◌};
ghost use Rattle.fields.specs.Cut.{split, nth};
ghost use Rattle.lines.specs.Into.{number_in, left};
ghost use Rattle.sheet.specs.Line.{tag_of, place, kind_of, key_of, row_of, told, follows, rises, sheet_line, keyed_line, through_line, judged, stored, line_into};
ghost use Rattle.sheet.specs.Sheet.{lines_of, fresh, ended, read_sheet, settled, last_answer};

use lines::{BadField, Width};
use tables::{Answer, Refusal};

// The greatest mask, and half of the numbers of 64 bits.
const MAX_MASK: u64 = 65535;

const HALF_64: u64 = 9223372036854775808;

// The kinds of line, in the order in which they stand.
#[derive(Clone, Copy, PartialEq, Eq, PartialOrd, Ord)]
pub enum Kind {
    Sheet,
    Count,
    Mode,
    Contained,
    Bytes,
    Through,
}

// What a line says: its kind, its key (0 where it has none) and its value.
#[derive(Clone, Copy)]
pub struct Row {
    pub kind: Kind,
    pub key: u64,
    pub value: u64,
}

fn tag_of(tag: &[u8]) -> Option<Kind>
    ensures { result ≡ tag_of tag.now }
{
    match tag {
        b"sheet" => Some(Kind::Sheet),
        b"c" => Some(Kind::Count),
        b"m" => Some(Kind::Mode),
        b"p" => Some(Kind::Contained),
        b"w" => Some(Kind::Bytes),
        b"t" => Some(Kind::Through),
        _ => None,
    }
}

// The number in field k of a line, counted from 0.
fn number_at(line: &[u8], k: u64, width: Width) -> Option<u64>
    ensures { result ≡ number_in width (nth k (split 9 line.now)) }
{
    lines::number_in(fields::part(line, 9, k), width)
}

// Whether the last line was the first or one after it, up to the kind `most`.
fn follows(last: Option<Row>, most: Kind) -> bool
    ensures { result ≡ follows (kind_of last) (place most) }
{
    match last {
        None => false,
        Some(row) => row.kind <= most,
    }
}

fn rises(last: Option<Row>, kind: Kind, key: u64) -> bool
    ensures { result ≡ rises (kind_of last) (key_of last) (place kind) key }
{
    match last {
        None => true,
        Some(row) => row.kind < kind || row.key < key,
    }
}

// What a line may say, or its bad field.
#[tactic(auto, unfolding(crate::specs::Line::sheet_line))]
fn sheet_line(line: &[u8], last: Option<Row>) -> Result<Row, BadField>
    ensures { told result ≡ sheet_line (kind_of last) (split 9 line.now) }
{
    if fields::count(line, 9) != 2 || last.is_some() {
        return Err(BadField { field: 0 });
    }
    let Some(1) = number_at(line, 1, Width::Signed(HALF_64)) else {
        return Err(BadField { field: 2 });
    };
    Ok(Row {
        kind: Kind::Sheet,
        key: 0,
        value: 0,
    })
}

// A line with a key up to `most` and a value.
#[tactic(auto, unfolding(crate::specs::Line::keyed_line))]
fn keyed_line(
    line: &[u8],
    kind: Kind,
    most: u64,
    width: Width,
    last: Option<Row>,
) -> Result<Row, BadField>
    ensures { told result ≡ keyed_line (place kind) (number_in (Width.Unsigned most)) (number_in width) (kind_of last) (key_of last) (split 9 line.now) }
{
    if fields::count(line, 9) != 3 || !follows(last, kind) {
        return Err(BadField { field: 0 });
    }
    let Some(key) = number_at(line, 1, Width::Unsigned(most)) else {
        return Err(BadField { field: 2 });
    };
    if !rises(last, kind, key) {
        return Err(BadField { field: 0 });
    }
    let Some(value) = number_at(line, 2, width) else {
        return Err(BadField { field: 3 });
    };
    Ok(Row { kind, key, value })
}

#[tactic(auto, unfolding(crate::specs::Line::through_line))]
fn through_line(line: &[u8], last: Option<Row>) -> Result<Row, BadField>
    ensures { told result ≡ through_line (kind_of last) (split 9 line.now) }
{
    if fields::count(line, 9) != 2 || !follows(last, Kind::Bytes) {
        return Err(BadField { field: 0 });
    }
    let Some(value) = number_at(line, 1, Width::Unsigned(1)) else {
        return Err(BadField { field: 2 });
    };
    Ok(Row {
        kind: Kind::Through,
        key: 0,
        value,
    })
}

// A line after the last one.
#[tactic(auto, unfolding(crate::specs::Line::judged))]
fn judge(line: &[u8], last: Option<Row>) -> Result<Row, BadField>
    ensures { told result ≡ judged (kind_of last) (key_of last) (split 9 line.now) }
{
    let Some(kind) = tag_of(fields::part(line, 9, 0)) else {
        return Err(BadField { field: 1 });
    };
    match kind {
        Kind::Sheet => sheet_line(line, last),
        Kind::Count => keyed_line(line, kind, 104, Width::Signed(HALF_64), last),
        Kind::Mode | Kind::Contained => keyed_line(line, kind, 15, Width::Unsigned(MAX_MASK), last),
        Kind::Bytes => keyed_line(line, kind, 15, Width::Signed(HALF_64), last),
        Kind::Through => through_line(line, last),
    }
}

#[tactic(auto, unfolding(crate::specs::Line::stored))]
fn store(row: Row, sheet: &mut [u64])
    ensures { sheet.new ≡ stored (row_of row) sheet.old }
{
    let Row { kind, key, value } = row;
    match kind {
        Kind::Sheet => {}
        Kind::Count => {
            cells::put_cell(sheet, 2, key, 0, 1);
            cells::put_cell(sheet, 2, key, 1, value);
        }
        Kind::Mode => cells::put_cell(sheet, 1, key, 256, value),
        Kind::Contained => cells::put_cell(sheet, 1, key, 272, value),
        Kind::Bytes => cells::put_cell(sheet, 1, key, 288, value),
        Kind::Through => cells::put(sheet, 304, value),
    }
}

// A line judged, and stored where it is good.
fn take_line(line: &[u8], last: Option<Row>, sheet: &mut [u64]) -> Result<Row, BadField>
    ensures { left (told result) sheet.new ≡ line_into (judged (kind_of last) (key_of last) (split 9 line.now)) sheet.old }
{
    let row = judge(line, last)?;
    store(row, sheet);
    Ok(row)
}

// What follows the last LF, from start to the end of the text.
#[tactic(auto, unfolding(crate::specs::Sheet::last_answer))]
fn last_line(line: u64, start: u64, end: u64) -> Answer
    ensures { result ≡ last_answer line start end }
{
    if tables::MAX_TEXT < end {
        return Err(Refusal::OutOfRange { table: 0, entry: 0 });
    }
    if start < end || line < 2 {
        return Err(Refusal::NotInForm { line, field: 0 });
    }
    Ok(())
}

// All lines, before a refusal zeroes the sheet.
fn read_lines(text: &[u8], sheet: &mut [u64]) -> Answer
    ensures { settled result sheet.new ≡ ended (lines_of (fresh sheet.old) (split 10 text.now)) }
{
    let mut last: Option<Row> = None;
    let mut line: u64 = 1;
    let mut p: u64 = 0;
    loop {
        let e = fields::find(text, p, 10);
        if text.len() as u64 <= e {
            return last_line(line, p, e);
        }
        if tables::MAX_TEXT <= e {
            return Err(Refusal::OutOfRange { table: 0, entry: 0 });
        }
        match take_line(fields::between(text, p, e), last, sheet) {
            Ok(row) => {
                last = Some(row);
                line += 1;
                p = e + 1;
            }
            Err(BadField { field }) => return Err(Refusal::NotInForm { line, field }),
        }
    }
}

// A refusal zeroes the sheet.
fn settle(answer: Answer, sheet: &mut [u64]) -> Answer
    ensures { left result sheet.new ≡ settled answer sheet.old }
{
    if answer.is_err() {
        cells::clear(sheet);
    }
    answer
}

// The whole text.
#[tactic(auto, unfolding(crate::specs::Sheet::read_sheet))]
pub fn read_sheet(text: &[u8], sheet: &mut [u64]) -> Answer
    ensures { left result sheet.new ≡ read_sheet text.now sheet.old }
{
    if (sheet.len() as u64) < tables::SHEET_CELLS {
        cells::clear(sheet);
        return Err(Refusal::TooShort {
            needed: tables::SHEET_CELLS,
        });
    }
    cells::clear(&mut sheet[..320]);
    let answer = read_lines(text, sheet);
    settle(answer, sheet)
}
