#![tactic(auto)]

ghost use Rattle.std.specs.Prelude.{◌≡◌};
ghost use Rattle.names.specs.Names.{number_of};

// The names that a rule looks up; every other name has the number 0.
pub const ROUNDING_MODE: u64 = 1;

pub const SATURATING: u64 = 2;

pub const INBOUNDS: u64 = 3;

pub const FAST_ACC: u64 = 4;

pub const PRODUCER: u64 = 5;

pub const PERMUTATION: u64 = 6;

pub const MODE: u64 = 7;

pub const MEMORY_ORDERING_SEMANTICS: u64 = 8;

pub const MEMORY_SCOPE: u64 = 9;

pub const NUM_ELEM: u64 = 10;

pub const ALIGNMENT: u64 = 11;

pub const OPERAND_SEGMENT_SIZES: u64 = 12;

pub const FLUSH_TO_ZERO: u64 = 13;

// The attribute forms, in the order i b a z p d s r x.
pub const INTEGER: u64 = 0;

pub const BOOL: u64 = 1;

pub const INTEGERS: u64 = 2;

pub const BOOLS: u64 = 3;

pub const PERMUTATION_LIST: u64 = 4;

pub const DIVISOR: u64 = 5;

pub const SIZES: u64 = 6;

pub const ENDPOINTS: u64 = 7;

pub const OTHER: u64 = 8;

// The names, in the order of their numbers.
static NAMES: [&[u8]; 13] = [
    b"rounding_mode",
    b"saturating",
    b"inbounds",
    b"fast_acc",
    b"producer",
    b"permutation",
    b"mode",
    b"memory_ordering_semantics",
    b"memory_scope",
    b"num_elem",
    b"alignment",
    b"operandSegmentSizes",
    b"flush_to_zero",
];

// The number of a name: its place among the names, from 1, and 0 of any other.
pub fn name_number(name: &[u8]) -> u64
    ensures { result ≡ number_of name.now }
{
    match NAMES.iter().position(|&n| name == n) {
        Some(place) => place as u64 + 1,
        None => 0,
    }
}
