// Lent tables: reads that give 0 past the end, writes that do nothing past the end. No caller has to ask first.
#![tactic(auto)]

ghost use Rattle.std.specs.Prelude.{◌≡◌, ◌+◌, ◌-◌, ◌*◌, ◌/◌, ◌%◌, ◌^◌, min, ◌&&◌, ltb, leb, length, get_or, set, replicate};
ghost use Rattle.cells.specs.Cell.{span_at, entries_of, part_at, copied};

// A number that a lent table holds: 32 bits or 64.
pub trait Word: Copy {
    ghost use Rattle.std.specs.Prelude.{ℕ};

    ghost number: { Self → ℕ };

    ghost zero: { Self };

    fn widen(self) -> u64
        ensures { result ≡ number self };

    fn zero() -> Self
        ensures { result ≡ zero };
}

impl Word for u32 {
    ghost number = { λ x. x };

    ghost zero = { 0 };

    fn widen(self) -> u64 {
        u64::from(self)
    }

    fn zero() -> Self {
        0u32
    }
}

impl Word for u64 {
    ghost number = { λ x. x };

    ghost zero = { 0 };

    fn widen(self) -> u64 {
        self // as wide already
    }

    fn zero() -> Self {
        0u64
    }
}

// Where a list's entries stand.
#[derive(Clone, Copy)]
pub struct Span {
    pub start: u64,
    pub len: u64,
}

// The entry at i.
pub fn at<T: Word>(s: &[T], i: u64) -> u64
    ensures { result ≡ T.number (get_or s.now i T.zero) }
{
    match s.get(i as usize) {
        Some(x) => x.widen(),
        None => T::zero().widen(),
    }
}

// x at i.
pub fn put<T: Copy>(s: &mut [T], i: u64, x: T)
    ensures { s.new ≡ set s.old i x }
{
    let k = i as usize;
    if k < s.len() {
        s[k] = x;
    }
}

// The low 32 bits, for a cell that holds no more.
pub fn narrow(x: u64) -> u32
    ensures { result ≡ x % 2 ^ 32 }
{
    (x % 4294967296) as u32
}

// Where the cell of a row and a column stands among len cells, or len where that is past the end: no product wraps.
pub fn place(len: u64, width: u64, row: u64, column: u64) -> u64
    ensures { result ≡ min (row * width + column) len }
{
    if width == 0 {
        return column.min(len);
    }
    if len / width < row {
        return len;
    }
    let start = row * width;
    if len - start <= column {
        return len;
    }
    start + column
}

// Whether the row stands whole among len cells and has so many of them from the column on.
fn is_whole(len: u64, width: u64, row: u64, column: u64, count: u64) -> bool
    ensures { result ≡ (ltb column width && (leb count (width - column) && ltb row (len / width))) }
{
    if width <= column {
        return false;
    }
    (count <= width - column) & (row < len / width)
}

// The cell of a row and a column, in rows of width cells. A whole row is the common case, asked first.
pub fn cell<T: Word>(s: &[T], width: u64, row: u64, column: u64) -> u64
    ensures { result ≡ T.number (get_or s.now (row * width + column) T.zero) }
{
    let n = s.len() as u64;
    if is_whole(n, width, row, column, 1) {
        return s[(row * width + column) as usize].widen();
    }
    at(s, place(n, width, row, column))
}

// x at the cell of a row and a column.
pub fn put_cell<T: Copy>(s: &mut [T], width: u64, row: u64, column: u64, x: T)
    ensures { s.new ≡ set s.old (row * width + column) x }
{
    let k = place(s.len() as u64, width, row, column);
    put(s, k, x);
}

// The span of a list: its start in the column, its length in the next.
pub fn span_at(s: &[u32], width: u64, row: u64, column: u64) -> Span
    ensures { result ≡ span_at width s.now row column }
{
    let n = s.len() as u64;
    if is_whole(n, width, row, column, 2) {
        let k = (row * width + column) as usize;
        return Span {
            start: s[k] as u64,
            len: s[k + 1] as u64,
        };
    }
    let k = place(n, width, row, column);
    if n <= k {
        return Span { start: 0, len: 0 };
    }
    let start = at(s, k);
    let len = at(s, k + 1);
    Span { start, len }
}

// The entries of a list, as far as the lent entries go.
pub fn entries(l: &[u64], span: Span) -> &[u64]
    ensures { result.now ≡ entries_of l.now span }
{
    let n = l.len();
    let start = span.start as usize;
    let len = span.len as usize;
    if n <= start {
        return &l[n..n];
    }
    if n - start <= len {
        return &l[start..n];
    }
    let end = start + len;
    &l[start..end]
}

// The entries from the cell of a row and a column on, as far as the lent entries go.
pub fn part_at(s: &[u64], width: u64, row: u64, column: u64, len: u64) -> &[u64]
    ensures { result.now ≡ part_at width s.now row column len }
{
    let n = s.len() as u64;
    if is_whole(n, width, row, column, len) {
        let start = (row * width + column) as usize;
        let end = start + len as usize;
        return &s[start..end];
    }
    let start = place(n, width, row, column);
    entries(s, Span { start, len })
}

// All zero.
pub fn clear<T: Word>(s: &mut [T])
    ensures { s.new ≡ replicate (length s.old) T.zero }
{
    for x in s {
        *x = T::zero();
    }
}

// As many entries as both have, from the front; the rest of the target stays.
pub fn copy<T: Copy>(from: &[T], to: &mut [T])
    ensures { to.new ≡ copied from.now to.old }
{
    let n = from.len().min(to.len());
    to[..n].copy_from_slice(&from[..n]);
}
