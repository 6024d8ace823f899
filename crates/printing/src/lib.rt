// What the command prints, laid as bytes into a lent buffer: `ok` with a line for each function, or the one `no` line of a refusal.
#![tactic(auto)]

ghost use Rattle.std.specs.Prelude.{◌≡◌};
ghost use Rattle.io.specs.Counts.{IsPrefixLen};
ghost use Rattle.printing.specs.Laid.{state, pushed, laid};
ghost use Rattle.printing.specs.Lines.{ok_line, decimal, digit_of, mark_at, parted, line, lines, no_line, number_lines, place_lines};

use tables::Numbers;

// A number takes one cell of its list, a place three.
const NUMBER_CELLS: u64 = 1;

const PLACE_CELLS: u64 = 3;

// One byte more, where there is room; where the next one goes.
#[tactic(auto, unfolding(crate::specs::Laid::pushed))]
fn push(out: &mut [u8], at: usize, byte: u8) -> usize
    ensures { state result out.new ≡ pushed (state at out.old) byte }
{
    if at < out.len() {
        out[at] = byte;
        return at + 1;
    }
    at
}

// The last decimal digit of a number.
fn digit(n: u64) -> u8
    ensures { result ≡ digit_of n }
{
    b'0' + (n % 10) as u8
}

// A number as the house text writes it.
fn push_number(out: &mut [u8], at: usize, n: u64) -> usize
    ensures { state result out.new ≡ laid (decimal n) (state at out.old) }
{
    if n < 10 {
        return push(out, at, digit(n));
    }
    let next = push_number(out, at, n / 10);
    push(out, next, digit(n))
}

// What stands before entry i of a list: each third one starts a place.
#[tactic(auto, unfolding(crate::specs::Lines::mark_at))]
fn mark_at(outer: u8, i: usize) -> u8
    ensures { result ≡ mark_at outer i }
{
    if i % 3 == 0 { outer } else { b',' }
}

// A mark, then a number.
fn push_marked(out: &mut [u8], at: usize, mark: u8, n: u64) -> usize
    ensures { state result out.new ≡ laid (decimal n) (pushed (state at out.old) mark) }
{
    let next = push(out, at, mark);
    push_number(out, next, n)
}

// The numbers of a list, parted.
fn push_list(out: &mut [u8], at: usize, outer: u8, list: &[u64]) -> usize
    ensures { state result out.new ≡ laid (parted outer list.now) (state at out.old) }
{
    if list.is_empty() {
        return at;
    }
    let mut next = push_number(out, at, list[0]);
    for i in 1..list.len() {
        next = push_marked(out, next, mark_at(outer, i), list[i]);
    }
    next
}

// The line of one function.
fn push_line(out: &mut [u8], at: usize, letter: u8, outer: u8, position: u64, list: &[u64]) -> usize
    ensures { state result out.new ≡ laid (line letter outer position list.now) (state at out.old) }
{
    let tagged = push(out, at, letter);
    let placed = push_marked(out, tagged, b'\t', position);
    let parted = push(out, placed, b'\t');
    let listed = push_list(out, parted, outer, list);
    push(out, listed, b'\n')
}

// The lines of all functions, each with as many entries of the list as it has; an entry takes so many cells.
fn push_lines(
    out: &mut [u8],
    at: usize,
    letter: u8,
    outer: u8,
    width: u64,
    list: &[u64],
    lengths: &[u64],
) -> usize
    ensures { state result out.new ≡ laid (lines letter outer width 0 lengths.now list.now) (state at out.old) }
{
    let mut next = at;
    let mut left = list;
    for (i, &count) in lengths.iter().enumerate() {
        let cells = cells::place(left.len() as u64, width, count, 0) as usize;
        let (own, rest) = left.split_at(cells);
        next = push_line(out, next, letter, outer, i as u64, own);
        left = rest;
    }
    next
}

// `ok` and the end of its line.
#[tactic(auto, unfolding(crate::specs::Laid::laid))]
fn push_ok(out: &mut [u8], at: usize) -> usize
    ensures { state result out.new ≡ laid ok_line (state at out.old) }
{
    let o = push(out, at, b'o');
    let k = push(out, o, b'k');
    push(out, k, b'\n')
}

// A refusal: `no`, its code, id and detail. How many bytes it takes.
pub fn no_line(n: Numbers, out: &mut [u8]) -> usize
    ensures laid { state result out.new ≡ laid (no_line n) (state 0 out.old) }
    ensures room { IsPrefixLen result out.new }
{
    let first = push(out, 0, b'n');
    let tagged = push(out, first, b'o');
    let code = push_marked(out, tagged, b'\t', n.code);
    let id = push_marked(out, code, b'\t', n.id);
    let detail = push_marked(out, id, b'\t', n.detail);
    push(out, detail, b'\n')
}

// What is accepted: `ok`, and for each length the numbers of that function.
pub fn number_lines(numbers: &[u64], lengths: &[u64], out: &mut [u8]) -> usize
    ensures laid { state result out.new ≡ laid (number_lines numbers.now lengths.now) (state 0 out.old) }
    ensures room { IsPrefixLen result out.new }
{
    let next = push_ok(out, 0);
    push_lines(out, next, b'n', b',', NUMBER_CELLS, numbers, lengths)
}

// Numbers read back: `ok`, and for each length the places of that function's operands.
pub fn place_lines(places: &[u64], lengths: &[u64], out: &mut [u8]) -> usize
    ensures laid { state result out.new ≡ laid (place_lines places.now lengths.now) (state 0 out.old) }
    ensures room { IsPrefixLen result out.new }
{
    let next = push_ok(out, 0);
    push_lines(out, next, b'p', b';', PLACE_CELLS, places, lengths)
}
