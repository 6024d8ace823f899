// Prints what `arith` answers at the edges of its ranges, one line an answer, fields parted by a tab.

#![tactic(auto)]

use std::fmt::{self, Write};

const OUT: i32 = 1;

static BITS: [u64; 12] = [
    0,
    1,
    2,
    3,
    4294967295,
    4294967296,
    4294967297,
    4611686018427387904,
    9223372036854775807,
    9223372036854775808,
    9223372036854775809,
    18446744073709551615,
];

static NUMBERS: [i64; 15] = [
    -9223372036854775808,
    -9223372036854775807,
    -4294967296,
    -2147483648,
    -3,
    -2,
    -1,
    0,
    1,
    2,
    3,
    2147483648,
    4294967296,
    9223372036854775806,
    9223372036854775807,
];

// The least and the greatest number of each width, and the number beyond each, where an i64 holds them.
static ENDS: [i64; 28] = [
    -9223372036854775808,
    -4611686018427387905,
    -4611686018427387904,
    -2147483649,
    -2147483648,
    -32769,
    -32768,
    -129,
    -128,
    -9,
    -8,
    -3,
    -2,
    -1,
    0,
    1,
    2,
    7,
    8,
    127,
    128,
    32767,
    32768,
    2147483647,
    2147483648,
    4611686018427387903,
    4611686018427387904,
    9223372036854775807,
];

// The widths that are asked.
static WIDTHS: [u64; 11] = [0, 1, 2, 4, 8, 16, 32, 63, 64, 65, 18446744073709551615];

// The standard output. A write that fails is passed over.
#[derive(Drop)]
struct Out;

impl Write for Out {
    fn write_str(&mut self, s: &str) -> fmt::Result {
        io::write_all(OUT, s.as_bytes());
        Ok(())
    }
}

// What a yes or no is called.
fn word(yes: bool) -> &'static str {
    if yes { "yes" } else { "no" }
}

// A number, or the word for where there is none.
#[derive(Clone, Copy)]
struct Or(Option<i64>, &'static str);

impl fmt::Display for Or {
    fn fmt<W: Write>(&self, f: &mut fmt::Formatter<W>) -> fmt::Result {
        match self.0 {
            Some(number) => write!(f, "{number}"),
            None => write!(f, "{}", self.1),
        }
    }
}

// Numbers with a comma between each two.
#[derive(Clone, Copy)]
struct List<'a>(&'a [i64]);

impl fmt::Display for List<'_> {
    fn fmt<W: Write>(&self, f: &mut fmt::Formatter<W>) -> fmt::Result {
        for (i, number) in self.0.iter().enumerate() {
            if 0 < i {
                write!(f, ",")?;
            }
            write!(f, "{number}")?;
        }
        Ok(())
    }
}

fn main() {
    let _ = lines(&mut Out);
}

fn lines(out: &mut Out) -> fmt::Result {
    for &x in &BITS {
        power(out, x)?;
        signed(out, x)?;
    }
    for k in 0..u64::BITS {
        power(out, 1 << k)?;
    }
    for &bits in &WIDTHS {
        widths(out, bits)?;
    }
    for &a in &NUMBERS {
        pairs(out, a)?;
    }
    products(out)
}

fn power(out: &mut Out, x: u64) -> fmt::Result {
    writeln!(out, "power\t{x}\t{}", word(arith::power_of_two(x)))
}

// The number of the bits, and the bits of that number again.
fn signed(out: &mut Out, bits: u64) -> fmt::Result {
    let z = arith::signed(bits);
    writeln!(out, "signed\t{bits}\t{z}\t{}", arith::bits_of(z))
}

fn widths(out: &mut Out, bits: u64) -> fmt::Result {
    for &v in &ENDS {
        writeln!(
            out,
            "width\t{bits}\t{v}\t{}",
            word(arith::fits_width(bits, v))
        )?;
    }
    Ok(())
}

// The bits of the number, and the number of those bits again; then what it is with each number.
fn pairs(out: &mut Out, a: i64) -> fmt::Result {
    let bits = arith::bits_of(a);
    writeln!(out, "bits\t{a}\t{bits}\t{}", arith::signed(bits))?;
    for &b in &NUMBERS {
        writeln!(out, "times\t{a}\t{b}\t{}", Or(arith::times(a, b), "leaves"))?;
        writeln!(
            out,
            "remainder\t{a}\t{b}\t{}",
            Or(arith::remainder_of(a, b), "none")
        )?;
    }
    Ok(())
}

fn products(out: &mut Out) -> fmt::Result {
    product(out, &[2147483648, 2147483648])?;
    product(out, &[4294967296, 2147483648])?;
    product(out, &[4611686018427387904, 4, 0])?;
    product(out, &[0, 4611686018427387904, 4])?;
    product(out, &[])?;
    product(out, &[1; 8])
}

fn product(out: &mut Out, dims: &[i64]) -> fmt::Result {
    writeln!(
        out,
        "product\t{}\t{}",
        List(dims),
        Or(arith::product_of(dims), "leaves")
    )
}
