// The opcodes that an arm of the rules is for, where the arm's crate does not name them: positions in `OPCODES`.
pub const ADD_F: u64 = 2;

pub const ASSUME: u64 = 6;

pub const EXP: u64 = 23;

pub const EXTRACT: u64 = 26;

pub const FMA: u64 = 28;

pub const F_TO_F: u64 = 30;

pub const F_TO_I: u64 = 31;

pub const LOAD_VIEW_TKO: u64 = 44;

pub const MAKE_PARTITION_VIEW: u64 = 48;

pub const MAKE_TENSOR_VIEW: u64 = 49;

pub const MMA_F: u64 = 55;

pub const MMA_I: u64 = 56;

pub const MUL_F: u64 = 58;

pub const STORE_VIEW_TKO: u64 = 84;

pub const SUB_F: u64 = 85;

pub const TAN_H: u64 = 88;

pub const ALLOCA: u64 = 95;

pub const MMA_F_SCALED: u64 = 96;

pub const MAKE_GATHER_SCATTER_VIEW: u64 = 97;

pub const MAKE_STRIDED_VIEW: u64 = 98;

pub const ATOMIC_RED_VIEW_TKO: u64 = 99;

pub const INSERT: u64 = 100;

pub const GDC_LAUNCH_DEPENDENTS_TKO: u64 = 101;

pub const GDC_WAIT_TKO: u64 = 102;

pub const F_POW_I: u64 = 103;

pub const MEMORY_FENCE_ALIAS_TKO: u64 = 104;
