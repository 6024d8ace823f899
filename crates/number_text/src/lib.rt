// A text of numbers as the bench prints it, line by line, into two lent lists: the numbers, and how many each function has.
#![tactic(auto)]

ghost use Rattle.std.specs.Prelude.{◌≡◌, ◌≤◌, length};
ghost use Rattle.fields.specs.Cut.{split};
ghost use Rattle.lines.specs.Into.{left};
ghost use Rattle.number_text.specs.Line.{ok_stands, list_line, kept, list_into};
ghost use Rattle.number_text.specs.Text.{lines_of, fresh, ended, read_numbers, settled, outcome, counted_into, listed_into, taken_into, last_answer};

use lines::{BadField, Width};
use tables::Refusal;

// The most bytes of such a text: room for every number at its widest.
pub const MAX_BYTES: u64 = 262144;

// What the lent lists hold: so many numbers, of so many functions.
#[derive(Clone, Copy)]
pub struct Lists {
    pub count: u64,
    pub functions: u64,
}

// Whether `ok` stands alone, on line 1.
fn ok_stands(line: &[u8], number: u64) -> bool
    ensures { result ≡ ok_stands number (split 9 line.now) }
{
    fields::count(line, b'\t') == 1 && number == 1
}

// How many numbers an `n` line has, after those so far; they go into the lent ones.
#[tactic(auto, unfolding(crate::specs::Line::list_line))]
fn list_line(line: &[u8], so_far: Lists, numbers: &mut [u64]) -> Result<u64, BadField>
    ensures { kept result numbers.new ≡ list_into so_far.count (list_line so_far.functions (split 9 line.now)) numbers.old }
{
    if fields::count(line, b'\t') != 3 {
        return Err(BadField { field: 200 });
    }
    let Some(position) = fields::unsigned(fields::part(line, b'\t', 1), u64::MAX) else {
        return Err(BadField { field: 202 });
    };
    if position != so_far.functions {
        return Err(BadField { field: 200 });
    }
    let list = fields::part(line, b'\t', 2);
    lines::list_into(list, Width::Unsigned(u64::MAX), so_far.count, numbers).ok_or(BadField {
        field: 203,
    })
}

// The length of the next function's list, where nothing is too many.
#[tactic(auto, unfolding(crate::specs::Text::counted_into))]
fn count_list(so_far: Lists, n: u64, lengths: &mut [u64]) -> Result<Lists, Refusal>
    ensures { left result lengths.new ≡ counted_into so_far.functions so_far.count n lengths.old }
{
    let Lists { count, functions } = so_far;
    if tables::MAX_FUNCTIONS <= functions
        || tables::MAX_ENTRIES.saturating_sub(count) < n
        || tables::MAX_ENTRIES < count
    {
        return Err(Refusal::OutOfRange { table: 0, entry: 0 });
    }
    cells::put(lengths, functions, n);
    Ok(Lists {
        count: count + n,
        functions: functions + 1,
    })
}

// An `n` line, its numbers and their count in the lent lists.
fn function_line(
    line: &[u8],
    number: u64,
    so_far: Lists,
    numbers: &mut [u64],
    lengths: &mut [u64],
) -> Result<Lists, Refusal>
    ensures { settled result numbers.new lengths.new ≡ listed_into number so_far.functions so_far.count (list_line so_far.functions (split 9 line.now)) numbers.old lengths.old }
{
    match list_line(line, so_far, numbers) {
        Ok(n) => count_list(so_far, n, lengths),
        Err(BadField { field }) => Err(Refusal::NotInForm {
            line: number,
            field,
        }),
    }
}

// A line by its tag.
#[tactic(auto, using(crate::proofs::Ways::equal_is), unfolding(crate::specs::Text::taken_into))]
fn take_line(
    line: &[u8],
    number: u64,
    so_far: Lists,
    numbers: &mut [u64],
    lengths: &mut [u64],
) -> Result<Lists, Refusal>
    ensures { settled result numbers.new lengths.new ≡ taken_into number so_far.functions so_far.count (split 9 line.now) numbers.old lengths.old }
{
    let tag = fields::part(line, b'\t', 0);
    if tag == b"n".as_slice() {
        return function_line(line, number, so_far, numbers, lengths);
    }
    if tag != b"ok".as_slice() {
        return Err(Refusal::NotInForm {
            line: number,
            field: 201,
        });
    }
    if !ok_stands(line, number) {
        return Err(Refusal::NotInForm {
            line: number,
            field: 200,
        });
    }
    Ok(so_far)
}

// What follows the last LF, from start to the end of the text.
#[tactic(auto, unfolding(crate::specs::Text::last_answer))]
fn last_line(line: u64, start: u64, end: u64, so_far: Lists) -> Result<Lists, Refusal>
    ensures { result ≡ last_answer line start end so_far.functions so_far.count }
{
    if MAX_BYTES < end {
        return Err(Refusal::OutOfRange { table: 0, entry: 0 });
    }
    if start < end {
        return Err(Refusal::NotInForm { line, field: 200 });
    }
    Ok(so_far)
}

// All lines, before a refusal zeroes the lent lists.
fn read_lines(text: &[u8], numbers: &mut [u64], lengths: &mut [u64]) -> Result<Lists, Refusal>
    requires { (8192 ≤ length numbers.old) × (64 ≤ length lengths.old) }
    ensures { settled result numbers.new lengths.new ≡ ended (lines_of fresh (split 10 text.now)) numbers.old lengths.old }
{
    let mut so_far = Lists {
        count: 0,
        functions: 0,
    };
    let mut line: u64 = 1;
    let mut p: u64 = 0;
    loop {
        let e = fields::find(text, p, b'\n');
        if text.len() as u64 <= e {
            return last_line(line, p, e, so_far);
        }
        if MAX_BYTES <= e {
            return Err(Refusal::OutOfRange { table: 0, entry: 0 });
        }
        so_far = take_line(fields::between(text, p, e), line, so_far, numbers, lengths)?;
        line += 1;
        p = e + 1;
    }
}

// A refusal zeroes both lists.
fn settle(
    answer: Result<Lists, Refusal>,
    numbers: &mut [u64],
    lengths: &mut [u64],
) -> Result<Lists, Refusal>
    ensures { outcome result numbers.new lengths.new ≡ settled answer numbers.old lengths.old }
{
    if answer.is_err() {
        cells::clear(numbers);
        cells::clear(lengths);
    }
    answer
}

// The whole text, where both lists have room for any.
#[tactic(auto, unfolding(crate::specs::Text::read_numbers))]
fn read_text(text: &[u8], numbers: &mut [u64], lengths: &mut [u64]) -> Result<Lists, Refusal>
    ensures { settled result numbers.new lengths.new ≡ read_numbers text.now numbers.old lengths.old }
{
    if (numbers.len() as u64) < tables::MAX_ENTRIES {
        return Err(Refusal::TooShort {
            needed: tables::MAX_ENTRIES,
        });
    }
    if (lengths.len() as u64) < tables::MAX_FUNCTIONS {
        return Err(Refusal::TooShort {
            needed: tables::MAX_FUNCTIONS,
        });
    }
    read_lines(text, numbers, lengths)
}

// The whole text.
pub fn read_numbers(text: &[u8], numbers: &mut [u64], lengths: &mut [u64]) -> Result<Lists, Refusal>
    ensures { outcome result numbers.new lengths.new ≡ read_numbers text.now numbers.old lengths.old }
{
    let answer = read_text(text, numbers, lengths);
    settle(answer, numbers, lengths)
}
