// The numbers that every rule rests on: signed bits, products that stay in an i64, ranges of widths,
// remainders, powers of two. Every function answers on every input.
#![tactic(auto)]

ghost use Rattle.std.specs.Prelude.{◌≡◌, ◌≤◌};
ghost use Rattle.arith.specs.Signed.{signed_of, bits_of, fits_width, remainder_of};
ghost use Rattle.arith.specs.Product.{times_of, product_of};
ghost use Rattle.arith.specs.Power.{is_power_of_two};
ghost use Rattle.arith.specs.Bits.{has_bit};

// The number whose two's complement these bits are.
pub fn signed(bits: u64) -> i64
    ensures { result ≡ signed_of bits }
{
    bits.cast_signed()
}

// The two's complement of z.
pub fn bits_of(z: i64) -> u64
    ensures { result ≡ bits_of z }
{
    z.cast_unsigned()
}

// a * b where that is an i64.
pub fn times(a: i64, b: i64) -> Option<i64>
    ensures { result ≡ times_of a b }
{
    a.checked_mul(b)
}

// The product from 1 and from the left; there is none where a partial product leaves i64.
pub fn product_of(dims: &[i64]) -> Option<i64>
    ensures { result ≡ product_of dims.now }
{
    let mut all = 1;
    for &d in dims {
        all = times(all, d)?;
    }
    Some(all)
}

// v lies in the signed range of so many bits. From 64 on every i64 does.
pub fn fits_width(bits: u64, v: i64) -> bool
    ensures { result ≡ fits_width bits v }
{
    if bits == 0 {
        return false;
    }
    if 64 <= bits {
        return true;
    }
    let half: u64 = 1 << (bits - 1);
    let most = (half - 1) as i64;
    let fewest = -most - 1;
    fewest <= v && v <= most
}

// The remainder with the dividend's sign, for a divisor above 0.
pub fn remainder_of(dividend: i64, divisor: i64) -> Option<i64>
    ensures { result ≡ remainder_of dividend divisor }
{
    if 0 < divisor {
        Some(dividend % divisor)
    } else {
        None
    }
}

// x is one of the 64 powers of two that a u64 holds.
pub fn power_of_two(x: u64) -> bool
    ensures { result ≡ is_power_of_two x }
{
    x.is_power_of_two()
}

// Bit k of a mask is set, of as many bits as its width says.
#[tactic(auto, using(crate::proofs::Bits::past_bits), unfolding(crate::specs::Bits::has_bit))]
pub fn has_bit(width: u64, mask: u64, k: u64) -> bool
    ensures { result ≡ has_bit width mask k }
{
    // No mask has so many bits.
    if 64 <= k {
        return false;
    }
    k < width && (mask >> k) % 2 == 1
}
