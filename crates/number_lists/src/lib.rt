// The number lists of functions, read back: each has as many numbers as its function has operands, then all are read.
#![tactic(auto)]

ghost use Rattle.std.specs.Prelude.{◌≡◌};
ghost use Rattle.tables.specs.Tables.{nest};
ghost use Rattle.read_back.specs.Alone.{outcome};
ghost use Rattle.number_lists.specs.Lists.{is_wrong, one_of, fits, all_fit, parted, read_lists};

use tables::{Answer, Counts, Refusal, Tables};

// A list of the wrong length is refused with no place.
fn is_wrong(answer: Answer) -> bool
    ensures { result ≡ is_wrong answer }
{
    match answer {
        Ok(()) => false,
        Err(why) => tables::numbers_of(why).detail == 0,
    }
}

// The same counts, of one function.
fn one_of(n: Counts) -> Counts
    ensures { result ≡ one_of n }
{
    Counts { functions: 1, ..n }
}

// The nesting alone: no types, values and attributes.
fn nest<'a>(
    o: &'a [u32],
    b: &'a [u32],
    r: &'a [u32],
    f: &'a [u32],
    l: &'a [u64],
    n: Counts,
) -> Tables<'a, 'a, 'a>
    ensures { result ≡ nest o.now b.now r.now f.now l.now n }
{
    Tables::new(&[], &[], o, &[], b, r, f, l, n)
}

// The first function of f has a list of its length.
#[tactic(auto, unfolding(crate::specs::Lists::fits))]
fn list_fits(
    o: &[u32],
    b: &[u32],
    r: &[u32],
    f: &[u32],
    l: &[u64],
    n: Counts,
    numbers: &[u64],
) -> bool
    ensures { result ≡ fits o.now b.now r.now f.now l.now n numbers.now }
{
    let mut none = [0u64; 1];
    let x = nest(o, b, r, f, l, one_of(n));
    !is_wrong(read_back::read_all(&x, numbers, &mut none))
}

// Each function has a list of its length, the numbers being parted by the lengths.
fn all_fit(
    o: &[u32],
    b: &[u32],
    r: &[u32],
    f: &[u32],
    l: &[u64],
    n: Counts,
    lengths: &[u64],
    numbers: &[u64],
) -> bool
    ensures { result ≡ all_fit o.now b.now r.now f.now l.now n lengths.now numbers.now }
{
    let mut left = numbers;
    for i in 0..f.len().min(lengths.len()) {
        let (own, rest) = left.split_at(left.len().min(lengths[i] as usize));
        if !list_fits(o, b, r, &f[i..], l, n, own) {
            return false;
        }
        left = rest;
    }
    true
}

// There is a list for each function, of its length.
fn lists_fit(
    o: &[u32],
    b: &[u32],
    r: &[u32],
    f: &[u32],
    l: &[u64],
    n: Counts,
    numbers: &[u64],
    lengths: &[u64],
) -> bool
    ensures { result ≡ parted o.now b.now r.now f.now l.now n numbers.now lengths.now }
{
    n.functions == lengths.len() as u64 && all_fit(o, b, r, f, l, n, lengths, numbers)
}

// The checks of reading back, then the lengths, then the places: three entries for each number. A refusal leaves the list as it was.
pub fn read_lists(
    o: &[u32],
    b: &[u32],
    r: &[u32],
    f: &[u32],
    l: &[u64],
    n: Counts,
    numbers: &[u64],
    lengths: &[u64],
    places: &mut [u64],
) -> Answer
    ensures { outcome result places.new ≡ read_lists o.now b.now r.now f.now l.now n numbers.now lengths.now places.old }
{
    let x = nest(o, b, r, f, l, n);
    nesting_check::check_nesting(&x)?;
    if !lists_fit(o, b, r, f, l, n, numbers, lengths) {
        return Err(Refusal::NotReadable {
            operation: 0,
            place: 0,
        });
    }
    read_back::read_back(o, b, r, f, l, n, numbers, places)
}
