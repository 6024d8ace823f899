// Numbers as the house text writes them, and the parts of a text. Every function answers on every input.
#![tactic(auto)]

ghost use Rattle.std.specs.Prelude.{◌≡◌, ◌+◌, ◌-◌, length, take, drop};
ghost use Rattle.fields.specs.Number.{unsigned_of, signed_of};
ghost use Rattle.fields.specs.Cut.{end_from, split, nth};
ghost use Rattle.fields.specs.Taken.{unsigned_from, signed_from};

// A number that is a whole part of a text, and where the next part starts.
#[derive(Clone, Copy)]
pub struct Taken {
    pub number: u64,
    pub next: u64,
}

// The number from 0 to max that the bytes write, in one pass.
pub fn unsigned(s: &[u8], max: u64) -> Option<u64>
    ensures { result ≡ unsigned_of max s.now }
{
    if s.is_empty() {
        return None;
    }
    if s[0] == b'0' && 1 < s.len() {
        return None;
    }
    // Above a tenth of max no digit can follow, so that x * 10 does not wrap, and no turn divides.
    let tenth = max / 10;
    let mut x: u64 = 0;
    for &b in s {
        if !b.is_ascii_digit() {
            return None;
        }
        if tenth < x {
            return None;
        }
        let tens = x * 10;
        let digit = u64::from(b - b'0');
        if max - tens < digit {
            return None;
        }
        x = tens + digit;
    }
    Some(x)
}

// The number from -half to half - 1 that the bytes write, as the 64 bits of its two's complement.
pub fn signed(s: &[u8], half: u64) -> Option<u64>
    ensures { result ≡ signed_of half s.now }
{
    if s.is_empty() {
        return None;
    }
    if half == 0 {
        return None;
    }
    if s[0] != b'-' {
        return unsigned(s, half - 1);
    }
    let size = unsigned(&s[1..], half)?;
    if size == 0 {
        return None;
    }
    Some(size.wrapping_neg())
}

// The number from 0 to max in the part that starts at a place and ends before a byte, in one pass.
pub fn unsigned_from(s: &[u8], start: u64, byte: u8, max: u64) -> Option<Taken>
    ensures { result ≡ unsigned_from byte max start s.now }
{
    let n = s.len();
    let first = start as usize;
    if n <= first {
        return None;
    }
    if s[first] == byte {
        return None;
    }
    if s[first] == b'0' {
        // No digit follows a first 0.
        if first + 1 < n && s[first + 1] != byte {
            return None;
        }
        return Some(Taken {
            number: 0,
            next: start + 2,
        });
    }
    let mut x: u64 = 0;
    for i in first..n {
        let b = s[i];
        if b == byte {
            return Some(Taken {
                number: x,
                next: i as u64 + 1,
            });
        }
        if !b.is_ascii_digit() {
            return None;
        }
        // Ten times as much would leave 64 bits.
        if u64::MAX / 10 < x {
            return None;
        }
        let tens = x * 10;
        if max < tens {
            return None;
        }
        let digit = u64::from(b - b'0');
        if max - tens < digit {
            return None;
        }
        x = tens + digit;
    }
    Some(Taken {
        number: x,
        next: n as u64 + 1,
    })
}

// The number from -half to half - 1 there, as the 64 bits of its two's complement.
pub fn signed_from(s: &[u8], start: u64, byte: u8, half: u64) -> Option<Taken>
    ensures { result ≡ signed_from byte half start s.now }
{
    if s.len() as u64 <= start {
        return None;
    }
    if half == 0 {
        return None;
    }
    let first = s[start as usize];
    if first == byte {
        return None;
    }
    if first != b'-' {
        return unsigned_from(s, start, byte, half - 1);
    }
    let size = unsigned_from(s, start + 1, byte, half)?;
    if size.number == 0 {
        return None;
    }
    Some(Taken {
        number: size.number.wrapping_neg(),
        next: size.next,
    })
}

// The first place from start on where the byte stands, or the length. Four bytes a turn by an index, since a text's time goes here.
pub fn find(s: &[u8], start: u64, byte: u8) -> u64
    ensures { result ≡ end_from byte start s.now }
{
    let n = s.len();
    let mut i = start as usize;
    if n <= i {
        return n as u64;
    }
    while i + 3 < n {
        if s[i] == byte {
            return i as u64;
        }
        if s[i + 1] == byte {
            return i as u64 + 1;
        }
        if s[i + 2] == byte {
            return i as u64 + 2;
        }
        if s[i + 3] == byte {
            return i as u64 + 3;
        }
        i += 4;
    }
    find_near(s, i as u64, byte)
}

// The same, byte by byte.
fn find_near(s: &[u8], start: u64, byte: u8) -> u64
    ensures { result ≡ end_from byte start s.now }
{
    for i in start as usize..s.len() {
        if s[i] == byte {
            return i as u64;
        }
    }
    s.len() as u64
}

// The bytes from one place up to another, as far as there are any.
pub fn between(s: &[u8], start: u64, end: u64) -> &[u8]
    ensures { result.now ≡ take (end - start) (drop start s.now) }
{
    let e = s.len().min(end as usize);
    let a = e.min(start as usize);
    &s[a..e]
}

// How many parts the byte cuts s into.
pub fn count(s: &[u8], byte: u8) -> u64
    ensures { result ≡ length (split byte s.now) }
{
    s.iter().filter(|x| **x == byte).count() as u64 + 1
}

// Part k, empty past the last. A loop over all parts goes by `find` and `between` instead, in one pass.
pub fn part(s: &[u8], byte: u8, k: u64) -> &[u8]
    ensures { result.now ≡ nth k (split byte s.now) }
{
    let mut p: u64 = 0;
    for i in 0..k {
        let end = find(s, p, byte);
        if end == s.len() as u64 {
            return &s[..0];
        }
        p = end + 1;
    }
    let end = find(s, p, byte);
    between(s, p, end)
}
