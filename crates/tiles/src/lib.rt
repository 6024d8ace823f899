// A tile by value, and the tests that the operation rules make of tiles. Every function answers on every input, so the parts of a test
// are joined by `&` and `|`: no part has to be asked first.
#![tactic(auto, unfolding(crate::specs::Kind::is_integer, crate::specs::Kind::bits_in, crate::specs::Tile::no_tile, crate::specs::Tile::row_tile, crate::specs::Tile::is_tile, crate::specs::Tile::is_number, crate::specs::Tile::is_pointer, crate::specs::Tile::scalar_of, crate::specs::Tile::has_kind, crate::specs::Tile::same_scalar, crate::specs::Tile::same_element, crate::specs::Tile::points_to, crate::specs::Tile::is_integers, crate::specs::Tile::is_integers_or_pointers, crate::specs::Shape::same_dim, crate::specs::Shape::same_rank, crate::specs::Shape::same_shape, crate::specs::Shape::same_tile, crate::specs::Shape::undivided_by, crate::specs::Shape::is_uneven, crate::specs::Shape::stretches_to, crate::specs::Shape::is_stretched, crate::specs::Shape::quotient_of, crate::specs::Shape::count_of, crate::specs::Rules::same_bits, crate::specs::Rules::is_bitcast, crate::specs::Rules::is_reshape, crate::specs::Rules::is_broadcast, crate::specs::Rules::is_permutation, crate::specs::Rules::is_permuted, crate::specs::Rules::is_packable, crate::specs::Rules::bit_count_of, crate::specs::Rules::is_packed, crate::specs::Rules::atomic_differs, crate::specs::Rules::is_word, crate::specs::Rules::is_wrong_mask, crate::specs::Rules::outside_dim, crate::specs::Rules::is_group_outside, crate::specs::Rules::is_groups_outside, crate::specs::Rules::is_power_base, crate::specs::Rules::is_power_exponent, crate::specs::Rules::is_no_part, crate::specs::Rules::is_index, crate::specs::Rules::is_axis_index, crate::specs::Mma::row_of, crate::specs::Mma::column_of, crate::specs::Mma::mma_ranks_differ, crate::specs::Mma::mma_dims_differ, crate::specs::Mma::is_mma_pair, crate::specs::Mma::is_mma_kinds, crate::specs::Mma::scale_ranks_differ, crate::specs::Mma::scale_dims_differ, crate::specs::Mma::vector_of, crate::specs::Mma::is_scaled, crate::specs::Mma::is_scale_kinds))]

ghost use Rattle.std.specs.Prelude.{◌≡◌, not, ◌||◌, map};
ghost use Rattle.arith.specs.Signed.{signed_of};
ghost use Rattle.cells.specs.Lists.{mem};
ghost use Rattle.tiles.specs.Kind.{is_integer, bits_in};
ghost use Rattle.tiles.specs.Tile.{no_tile, eight_of, cells_of, row_tile, tile_row, seen_in, view_in, rank_of, dim_of, dims_of, is_tile, is_number, is_pointer, has_kind, same_scalar, same_element, points_to, is_integers, is_integers_or_pointers};
ghost use Rattle.tiles.specs.Shape.{eq_z, any_pair, all_pairs, same_dim, same_rank, same_shape, same_tile, undivided_by, is_uneven, stretches_to, is_stretched, quotient_of, count_of, same_product};
ghost use Rattle.tiles.specs.Rules.{same_bits, is_bitcast, is_reshape, is_broadcast, has_axes, is_permutation, moved_from, is_permuted, is_packable, bit_count_of, in_bytes, is_packed, atomic_differs, is_word, is_wrong_mask, outside_dim, is_group_outside, is_groups_outside, is_power_base, is_power_exponent, is_no_part, is_index, is_axis_index};
ghost use Rattle.tiles.specs.Mma.{row_of, column_of, mma_ranks_differ, mma_dims_differ, is_mma_pair, is_mma_kinds, scale_ranks_differ, scale_dims_differ, vector_of, is_scaled, is_scale_kinds};

use tables::Tables;

// The kinds of elements. They stay numbers: a cell may hold any other, and every test here answers on it (`same_element` tells 16 from 17).
pub const I1: u64 = 0;

pub const I4: u64 = 1;

pub const I8: u64 = 2;

pub const I16: u64 = 3;

pub const I32: u64 = 4;

pub const I64: u64 = 5;

pub const F16: u64 = 6;

pub const BF16: u64 = 7;

pub const F32: u64 = 8;

pub const TF32: u64 = 9;

pub const F64: u64 = 10;

pub const F8E4M3FN: u64 = 11;

pub const F8E5M2: u64 = 12;

pub const F8E8M0FNU: u64 = 13;

pub const F4E2M1FN: u64 = 14;

pub const F8E5M3FNU: u64 = 15;

// What a rule sees of a type: form 0 is no tile, 1 a tile of numbers, 2 a tile of pointers to its kind. `tile_of` keeps any other form as it
// stands in the cells, so it is no enum.
#[derive(Clone, Copy)]
pub struct Tile {
    pub form: u64,
    pub kind: u64,
    pub rank: u64,
    pub dims: [i64; 8],
}

pub fn no_tile() -> Tile
    ensures { result ≡ no_tile }
{
    Tile {
        form: 0,
        kind: 0,
        rank: 0,
        dims: [0; 8],
    }
}

// The first eight numbers with these bits, with 0 after them.
#[tactic(auto, using(crate::proofs::Dims::eight_is))]
fn eight(bits: &[u64]) -> [i64; 8]
    ensures { result ≡ eight_of bits.now }
{
    let mut dims = [0; 8];
    for i in 0..8 {
        dims[i] = arith::signed(cells::at(bits, i as u64));
    }
    dims
}

// The kind and dims of a type's cells, as a tile of this form; none at all are no tile.
fn row_tile(form: u64, row: &[u64]) -> Tile
    ensures { result ≡ row_tile form row.now }
{
    let dims = row.get(8..).unwrap_or(&[]);
    Tile {
        form,
        kind: cells::at(row, 1),
        rank: cells::at(row, 5)
            .min(tables::MAX_RANK)
            .min(dims.len() as u64),
        dims: eight(dims),
    }
}

// The cells of a type, as far as they go; none of an id that is no type.
#[tactic(auto, unfolding(crate::specs::Tile::cells_of))]
fn type_row<'t>(x: &Tables<'_, 't, '_>, id: u64) -> &'t [u64]
    ensures { result.now ≡ cells_of x.now.t x.now.counts id }
{
    if id < x.counts().types {
        return cells::part_at(
            x.type_cells(),
            tables::TYPE_CELLS,
            id,
            0,
            tables::TYPE_CELLS,
        );
    }
    &[]
}

// The cells of a type that is a tile; none of any other.
#[tactic(auto, using(crate::proofs::Rows::seen_by))]
pub fn seen_row<'t>(x: &Tables<'_, 't, '_>, sheet: &[u64], id: u64) -> &'t [u64]
    ensures { result.now ≡ seen_in x.now.t sheet.now x.now.counts id }
{
    let row = type_row(x, id);
    let form = cells::at(row, 0);
    let seen = (cells::at(row, 2) == 0) | tables::tile_through(sheet);
    if ((form == 1) | (form == 2)) & seen {
        return row;
    }
    &[]
}

// The tile that such cells are; none where there are none.
pub fn tile_of(row: &[u64]) -> Tile
    ensures { result ≡ tile_row row.now }
{
    row_tile(cells::at(row, 0), row)
}

// The tile that a view takes and gives.
#[tactic(auto, using(crate::proofs::Rows::form_at), unfolding(crate::specs::Tile::view_in))]
pub fn view_tile(x: &Tables<'_, '_, '_>, id: u64) -> Tile
    ensures { result ≡ view_in x.now.t x.now.counts id }
{
    let row = type_row(x, id);
    let form = cells::at(row, 0);
    if (4 <= form) & (form <= 6) {
        return row_tile(1, row);
    }
    no_tile()
}

// The dims that count.
#[tactic(auto, using(crate::proofs::Dims::first_dims))]
fn shape(t: &Tile) -> &[i64]
    ensures { result.now ≡ dims_of t.now }
{
    let n = t.rank.min(tables::MAX_RANK) as usize;
    &t.dims[..n]
}

// How many they are.
#[tactic(auto, using(crate::proofs::Dims::rank_is))]
pub fn rank(t: Tile) -> u64
    ensures { result ≡ rank_of t }
{
    t.rank.min(tables::MAX_RANK)
}

// Dim i, 0 past the rank.
#[tactic(auto, unfolding(crate::specs::Tile::dim_of))]
pub fn dim(t: Tile, i: u64) -> i64
    ensures { result ≡ dim_of t i }
{
    shape(&t).get(i as usize).copied().unwrap_or(0)
}

pub fn is_tile(t: Tile) -> bool
    ensures { result ≡ is_tile t }
{
    t.form != 0
}

pub fn is_number(t: Tile) -> bool
    ensures { result ≡ is_number t }
{
    t.form == 1
}

pub fn is_pointer(t: Tile) -> bool
    ensures { result ≡ is_pointer t }
{
    t.form == 2
}

pub fn is_integer(kind: u64) -> bool
    ensures { result ≡ is_integer kind }
{
    kind <= I64
}

// A tile of numbers of this kind.
pub fn has_kind(t: Tile, kind: u64) -> bool
    ensures { result ≡ has_kind t kind }
{
    is_number(t) & (t.kind == kind)
}

// Numbers of one kind, or neither of numbers.
pub fn same_scalar(a: Tile, b: Tile) -> bool
    ensures { result ≡ same_scalar a b }
{
    if is_number(a) {
        return has_kind(b, a.kind);
    }
    !is_number(b)
}

pub fn same_element(a: Tile, b: Tile) -> bool
    ensures { result ≡ same_element a b }
{
    (a.form == b.form) & (a.kind == b.kind)
}

// Pointers to numbers of the other's kind.
pub fn points_to(p: Tile, v: Tile) -> bool
    ensures { result ≡ points_to p v }
{
    is_pointer(p) & has_kind(v, p.kind)
}

pub fn is_integers(t: Tile) -> bool
    ensures { result ≡ is_integers t }
{
    is_number(t) & is_integer(t.kind)
}

pub fn is_integers_or_pointers(t: Tile) -> bool
    ensures { result ≡ is_integers_or_pointers t }
{
    is_tile(t) & (!is_number(t) | is_integer(t.kind))
}

pub fn same_rank(a: Tile, b: Tile) -> bool
    ensures { result ≡ same_rank a b }
{
    rank(a) == rank(b)
}

// Dim i of a is dim j of b.
#[tactic(auto, using(crate::proofs::Equal::bits_test), unfolding(crate::specs::Shape::same_dim))]
pub fn same_dim(a: Tile, i: u64, b: Tile, j: u64) -> bool
    ensures { result ≡ same_dim a i b j }
{
    dim(a, i) == dim(b, j)
}

#[tactic(auto, using(crate::proofs::Pairs::pointwise_is), unfolding(crate::specs::Shape::same_shape, crate::specs::Shape::same_rank, crate::specs::Tile::rank_of))]
pub fn same_shape(a: Tile, b: Tile) -> bool
    ensures { result ≡ same_shape a b }
{
    shape(&a) == shape(&b)
}

pub fn same_tile(a: Tile, b: Tile) -> bool
    ensures { result ≡ same_tile a b }
{
    same_element(a, b) & same_shape(a, b)
}

// The small number is none that divides the large one.
#[tactic(auto, using(crate::proofs::Equal::rest_is, crate::proofs::Equal::no_divisor, crate::proofs::Equal::bits_is))]
pub fn undivided(small: i64, large: i64) -> bool
    ensures { result ≡ undivided_by small large }
{
    match arith::remainder_of(large, small) {
        Some(rest) => rest != 0,
        None => true,
    }
}

// Some dim of the small tile does not divide that of the large one, up to the shorter.
pub fn uneven(small: Tile, large: Tile) -> bool
    ensures { result ≡ is_uneven small large }
{
    shape(&small)
        .iter()
        .zip(shape(&large))
        .any(|(s, l)| undivided(*s, *l))
}

// A dim that a broadcast takes to this one.
#[tactic(auto, using(crate::proofs::Equal::bits_test, crate::proofs::Equal::bits_is), unfolding(crate::specs::Shape::stretches_to))]
fn stretches(a: i64, b: i64) -> bool
    ensures { result ≡ stretches_to a b }
{
    (a == b) | (a == 1)
}

// A broadcast takes each dim to the other's, up to the shorter.
pub fn stretched(src: Tile, dst: Tile) -> bool
    ensures { result ≡ is_stretched src dst }
{
    shape(&src)
        .iter()
        .zip(shape(&dst))
        .all(|(s, d)| stretches(*s, *d))
}

// The product of the dims, from the left.
pub fn count(t: Tile) -> Option<i64>
    ensures { result ≡ count_of t }
{
    arith::product_of(shape(&t))
}

// Two products that are i64s, and the same.
#[tactic(auto, using(crate::proofs::Equal::bits_test))]
pub fn same_product(p: Option<i64>, q: Option<i64>) -> bool
    ensures { result ≡ same_product p q }
{
    match (p, q) {
        (Some(x), Some(y)) => x == y,
        _ => false,
    }
}

// The bits of an element of this kind.
pub fn bits(sheet: &[u64], kind: u64) -> u64
    ensures { result ≡ bits_in sheet.now kind }
{
    match kind {
        I1 => 1,
        I4 | F4E2M1FN => 4,
        _ => 8 * tables::byte_width(sheet, kind).min(8),
    }
}

// ---- the six shape operations

pub fn same_bits(sheet: &[u64], a: Tile, b: Tile) -> bool
    ensures { result ≡ same_bits sheet.now a b }
{
    is_number(a) & is_number(b) & (bits(sheet, a.kind) == bits(sheet, b.kind))
}

pub fn is_bitcast(sheet: &[u64], src: Tile, dst: Tile) -> bool
    ensures { result ≡ is_bitcast sheet.now src dst }
{
    same_shape(src, dst) & same_bits(sheet, src, dst)
}

pub fn is_reshape(src: Tile, dst: Tile) -> bool
    ensures { result ≡ is_reshape src dst }
{
    same_element(src, dst) & same_product(count(src), count(dst))
}

pub fn is_broadcast(src: Tile, dst: Tile) -> bool
    ensures { result ≡ is_broadcast src dst }
{
    same_element(src, dst) & same_rank(src, dst) & stretched(src, dst)
}

// Every axis below n is among the entries.
#[tactic(auto, using(crate::proofs::Axes::mem_is, crate::proofs::Axes::axes_none, crate::proofs::Axes::axes_more, crate::proofs::Axes::axes_not))]
fn has_axes(entries: &[u64], n: u64) -> bool
    ensures { result ≡ has_axes entries.now n }
{
    for axis in 0..n {
        if !entries.contains(&axis) {
            return false;
        }
    }
    true
}

fn is_permutation(entries: &[u64], n: u64) -> bool
    ensures { result ≡ is_permutation entries.now n }
{
    (entries.len() as u64 == n) & has_axes(entries, n)
}

// Each dim of the result is the source's at the entry.
#[tactic(auto, using(crate::proofs::Axes::moved_more, crate::proofs::Axes::moved_end))]
fn moved(src: Tile, dst: Tile, entries: &[u64]) -> bool
    ensures { result ≡ moved_from src dst 0 entries.now }
{
    for (i, &k) in entries.iter().enumerate() {
        if !same_dim(dst, i as u64, src, k) {
            return false;
        }
    }
    true
}

pub fn is_permuted(src: Tile, dst: Tile, entries: &[u64]) -> bool
    ensures { result ≡ is_permuted src dst entries.now }
{
    let n = rank(src);
    (2 <= n)
        & same_rank(dst, src)
        & same_element(src, dst)
        & is_permutation(entries, n)
        & moved(src, dst, entries)
}

// All but the counts.
pub fn is_packable(sheet: &[u64], src: Tile, dst: Tile) -> bool
    ensures { result ≡ is_packable sheet.now src dst }
{
    is_number(src)
        & is_number(dst)
        & (rank(src) == 1)
        & (rank(dst) == 1)
        & (bits(sheet, src.kind) != bits(sheet, dst.kind))
}

// The bits of all elements.
pub fn bit_count(sheet: &[u64], t: Tile) -> Option<i64>
    ensures { result ≡ bit_count_of sheet.now t }
{
    arith::times(count(t)?, bits(sheet, t.kind) as i64)
}

fn in_bytes(p: Option<i64>) -> bool
    ensures { result ≡ in_bytes p }
{
    p.is_some_and(|n| !undivided(8, n))
}

// As many bits on both sides, in whole bytes.
pub fn is_packed(sheet: &[u64], src: Tile, dst: Tile) -> bool
    ensures { result ≡ is_packed sheet.now src dst }
{
    let all = bit_count(sheet, src);
    same_product(all, bit_count(sheet, dst)) & in_bytes(all)
}

// ---- atomics

pub fn atomic_differs(ptr: Tile, val: Tile, res: Tile) -> bool
    ensures { result ≡ atomic_differs ptr val res }
{
    !points_to(ptr, val) | !same_shape(ptr, val) | !same_tile(res, val)
}

// 32 or 64 bits.
pub fn is_word(sheet: &[u64], kind: u64) -> bool
    ensures { result ≡ is_word sheet.now kind }
{
    let n = bits(sheet, kind);
    (n == 32) | (n == 64)
}

pub fn is_wrong_mask(mask: Tile, val: Tile) -> bool
    ensures { result ≡ is_wrong_mask mask val }
{
    is_tile(mask) & (!has_kind(mask, I1) | !same_shape(mask, val))
}

// ---- Assume; the numbers of an attribute come as their bits

// A group size that is negative or above the dim.
fn outside(size: i64, dim: i64) -> bool
    ensures { result ≡ outside_dim size dim }
{
    (size < 0) | (dim < size)
}

// No axis, or no group size of that axis.
#[tactic(auto, using(crate::proofs::Groups::no_axis, crate::proofs::Groups::of_axis, crate::proofs::Dims::rank_is))]
pub fn group_outside(t: Tile, every: u64, along: u64) -> bool
    ensures { result ≡ is_group_outside t (signed_of every) (signed_of along) }
{
    if rank(t) <= along {
        return true;
    }
    outside(arith::signed(every), dim(t, along))
}

// Some group size is none of its axis, up to the shorter.
fn some_outside(sizes: &[u64], t: Tile) -> bool
    ensures { result ≡ any_pair outside_dim (map signed_of sizes.now) (dims_of t) }
{
    sizes
        .iter()
        .zip(shape(&t))
        .any(|(size, dim)| outside(arith::signed(*size), *dim))
}

// Not one group size for each axis.
pub fn groups_outside(t: Tile, sizes: &[u64]) -> bool
    ensures { result ≡ is_groups_outside t (map signed_of sizes.now) }
{
    (sizes.len() as u64 != rank(t)) | some_outside(sizes, t)
}

// ---- FPowI

pub fn is_power_base(t: Tile) -> bool
    ensures { result ≡ is_power_base t }
{
    is_number(t) & matches!(t.kind, F16 | BF16 | F32 | F64)
}

pub fn is_power_exponent(t: Tile) -> bool
    ensures { result ≡ is_power_exponent t }
{
    is_number(t) & matches!(t.kind, I1 | I8 | I16 | I32)
}

// ---- Insert and Extract

pub fn is_no_part(small: Tile, large: Tile) -> bool
    ensures { result ≡ is_no_part small large }
{
    !same_element(small, large) | !same_rank(small, large) | uneven(small, large)
}

// A single I32.
pub fn is_index(t: Tile) -> bool
    ensures { result ≡ is_index t }
{
    (rank(t) == 0) & has_kind(t, I32)
}

// ---- views

// An index along a sparse axis.
pub fn is_axis_index(index: Tile, view: Tile, axis: u64) -> bool
    ensures { result ≡ is_axis_index index view axis }
{
    (rank(index) == 1) & same_dim(index, 0, view, axis)
}

// ---- MMA

// The last dim but one.
fn row(t: Tile) -> u64
    ensures { result ≡ row_of t }
{
    rank(t).saturating_sub(2)
}

// The last dim.
fn column(t: Tile) -> u64
    ensures { result ≡ column_of t }
{
    rank(t).saturating_sub(1)
}

pub fn mma_ranks_differ(a: Tile, b: Tile, c: Tile, res: Tile) -> bool
    ensures { result ≡ mma_ranks_differ a b c res }
{
    let n = rank(a);
    !((n == 2) | (n == 3)) | !same_rank(b, a) | !same_rank(c, a) | !same_tile(res, c)
}

// M, N, K or the batch differ.
pub fn mma_dims_differ(a: Tile, b: Tile, c: Tile) -> bool
    ensures { result ≡ mma_dims_differ a b c }
{
    let i = row(a);
    let j = column(a);
    !same_dim(a, i, c, i)
        | !same_dim(b, j, c, j)
        | !same_dim(a, j, b, i)
        | ((rank(a) == 3) & (!same_dim(a, 0, b, 0) | !same_dim(a, 0, c, 0)))
}

// The accumulators that MmaF takes for an input.
fn is_mma_pair(input: u64, acc: u64) -> bool
    ensures { result ≡ is_mma_pair input acc }
{
    match input {
        F4E2M1FN | F8E4M3FN | F8E5M2 | F16 => (acc == F16) | (acc == F32),
        BF16 | TF32 | F32 => acc == F32,
        F64 => acc == F64,
        _ => false,
    }
}

pub fn is_mma_kinds(a: Tile, c: Tile) -> bool
    ensures { result ≡ is_mma_kinds a c }
{
    is_number(a) & is_number(c) & is_mma_pair(a.kind, c.kind)
}

pub fn scale_ranks_differ(a: Tile, c: Tile, sa: Tile, sb: Tile) -> bool
    ensures { result ≡ scale_ranks_differ a c sa sb }
{
    !same_rank(sa, a) | !same_rank(sb, a) | !has_kind(c, F32) | !same_scalar(sa, sb)
}

pub fn scale_dims_differ(a: Tile, b: Tile, sa: Tile, sb: Tile) -> bool
    ensures { result ≡ scale_dims_differ a b sa sb }
{
    let i = row(a);
    let j = column(a);
    !same_dim(sa, i, a, i)
        | !same_dim(sb, j, b, j)
        | !same_dim(sa, j, sb, i)
        | ((rank(a) == 3) & (!same_dim(sa, 0, a, 0) | !same_dim(sb, 0, b, 0)))
        | undivided(dim(sa, j), dim(a, j))
}

// How often the small number goes into the large one, 0 where it is not above 0.
fn quotient(large: i64, small: i64) -> i64
    ensures { result ≡ quotient_of large small }
{
    if 0 < small {
        return large / small;
    }
    0
}

// How many columns a scale is for.
fn vector(a: Tile, sa: Tile) -> i64
    ensures { result ≡ vector_of a sa }
{
    let j = column(a);
    quotient(dim(a, j), dim(sa, j))
}

// The scales that MmaFScaled takes for an input, and for how many columns.
#[tactic(auto, using(crate::proofs::Equal::bits_is), unfolding(crate::specs::Mma::is_scaled))]
fn is_scaled(input: u64, scale: u64, vector: i64) -> bool
    ensures { result ≡ is_scaled input scale vector }
{
    match (input, scale) {
        (F4E2M1FN, F8E4M3FN) => vector == 16,
        (F4E2M1FN, F8E8M0FNU | F8E5M3FNU) => (vector == 16) | (vector == 32),
        (F8E4M3FN | F8E5M2, F8E8M0FNU) => vector == 32,
        _ => false,
    }
}

pub fn is_scale_kinds(a: Tile, sa: Tile) -> bool
    ensures { result ≡ is_scale_kinds a sa }
{
    is_number(a) & is_number(sa) & is_scaled(a.kind, sa.kind, vector(a, sa))
}
