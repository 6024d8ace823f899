// The operation rules on matrices and their parts: MmaF, MmaI and MmaFScaled, and Insert and Extract. Each arm answers on any tables.
#![tactic(auto, unfolding(lookups::specs::Verdict::fail_if))]

ghost use Rattle.std.specs.Prelude.{◌≡◌, not, drop};
ghost use Rattle.std.specs.List.{list_any};
ghost use Rattle.tables.specs.Layout.{value_type_in};
ghost use Rattle.tiles.specs.Tile.{tile_in};
ghost use Rattle.tiles.specs.Rules.{is_index};
ghost use Rattle.rules_matrix.specs.Mma.{scaled_rule, kinds_rule, mma_rule, mma_arm};
ghost use Rattle.rules_matrix.specs.Part.{indices_differ, part_rule, part_arm};

use lookups::{Verdict, fail_if};
use tables::Tables;
use tiles::Tile;

const MMA_F: u64 = 55;

const MMA_F_SCALED: u64 = 96;

const INSERT: u64 = 100;

// What MmaFScaled asks of its scales.
#[tactic(auto, unfolding(crate::specs::Mma::scaled_rule, lookups::specs::Verdict::fail_if))]
fn scaled_rule(a: Tile, b: Tile, c: Tile, sa: Tile, sb: Tile) -> Verdict
    ensures { result ≡ scaled_rule a b c sa sb }
{
    fail_if(!tiles::is_tile(sa), 8)?;
    fail_if(!tiles::is_tile(sb), 9)?;
    fail_if(tiles::scale_ranks_differ(a, c, sa, sb), 10)?;
    fail_if(tiles::scale_dims_differ(a, b, sa, sb), 11)?;
    fail_if(!tiles::is_scale_kinds(a, sa), 12)
}

// What an opcode asks of kinds and scales.
#[tactic(auto, unfolding(crate::specs::Mma::kinds_rule, lookups::specs::Verdict::fail_if))]
fn kinds_rule(opcode: u64, a: Tile, b: Tile, c: Tile, sa: Tile, sb: Tile) -> Verdict
    ensures { result ≡ kinds_rule opcode a b c sa sb }
{
    match opcode {
        MMA_F => fail_if(!tiles::is_mma_kinds(a, c), 7),
        MMA_F_SCALED => scaled_rule(a, b, c, sa, sb),
        _ => Ok(()),
    }
}

// The arm over the tiles that it reads.
#[tactic(auto, unfolding(crate::specs::Mma::mma_rule, lookups::specs::Verdict::fail_if))]
fn mma_rule(opcode: u64, a: Tile, b: Tile, c: Tile, res: Tile, sa: Tile, sb: Tile) -> Verdict
    ensures { result ≡ mma_rule opcode a b c res sa sb }
{
    fail_if(!tiles::is_tile(a), 1)?;
    fail_if(!tiles::is_tile(b), 2)?;
    fail_if(!tiles::is_tile(c), 3)?;
    fail_if(tiles::mma_ranks_differ(a, b, c, res), 4)?;
    fail_if(tiles::mma_dims_differ(a, b, c), 5)?;
    fail_if(!tiles::same_scalar(a, b), 6)?;
    kinds_rule(opcode, a, b, c, sa, sb)
}

// The arm of MmaF, MmaI and MmaFScaled.
#[tactic(auto, unfolding(crate::specs::Mma::mma_in))]
pub fn mma(x: &Tables<'_, '_, '_>, sheet: &[u64], operation: u64) -> Verdict
    ensures { result ≡ mma_arm sheet.now x.now operation }
{
    let opcode = x.opcode(operation);
    let a = lookups::operand_tile(x, sheet, operation, 0);
    let b = lookups::operand_tile(x, sheet, operation, 1);
    let c = lookups::operand_tile(x, sheet, operation, 2);
    let result = lookups::result_tile(x, sheet, operation);
    let sa = lookups::operand_tile(x, sheet, operation, 3);
    let sb = lookups::operand_tile(x, sheet, operation, 4);
    mma_rule(opcode, a, b, c, result, sa, sb)
}

// The value is a single I32.
#[tactic(auto, unfolding(tiles::specs::Tile::tile_in))]
fn is_index_value(x: &Tables<'_, '_, '_>, sheet: &[u64], value: u64) -> bool
    ensures { result ≡ is_index (tile_in x.now.t sheet.now x.now.counts (value_type_in x.now.v x.now.counts value)) }
{
    let row = tiles::seen_row(x, sheet, x.value_type(value));
    tiles::is_index(tiles::tile_of(row))
}

// Some value from the offset on is no single I32.
fn any_other(x: &Tables<'_, '_, '_>, sheet: &[u64], values: &[u64], offset: u64) -> bool
    ensures { result ≡ list_any (λ v. not (is_index (tile_in x.now.t sheet.now x.now.counts (value_type_in x.now.v x.now.counts v)))) (drop offset values.now) }
{
    let mut indices = values.iter().skip(offset as usize);
    indices.any(|v| !is_index_value(x, sheet, *v))
}

// The operands from the offset on are not one index for each of so many dims.
#[tactic(auto, using(crate::proofs::Indices::other_count, crate::proofs::Indices::same_count))]
fn indices_differ(
    x: &Tables<'_, '_, '_>,
    sheet: &[u64],
    operation: u64,
    offset: u64,
    rank: u64,
) -> bool
    ensures { result ≡ indices_differ x.now.t x.now.v x.now.o x.now.l sheet.now x.now.counts operation offset rank }
{
    let operands = x.operands(operation);
    let count = operands.len() as u64;
    if count < offset || count - offset != rank {
        return true;
    }
    any_other(x, sheet, operands, offset)
}

// What Insert and Extract ask of the small tile, the large one, and the operands from the offset on.
#[tactic(auto, unfolding(crate::specs::Part::part_rule, lookups::specs::Verdict::fail_if))]
fn part_rule(
    x: &Tables<'_, '_, '_>,
    sheet: &[u64],
    operation: u64,
    small: Tile,
    large: Tile,
    offset: u64,
) -> Verdict
    ensures { result ≡ part_rule x.now.t x.now.v x.now.o x.now.l sheet.now x.now.counts operation small large offset }
{
    fail_if(tiles::is_no_part(small, large), 4)?;
    let rank = tiles::rank(small);
    fail_if(indices_differ(x, sheet, operation, offset, rank), 5)
}

// The arm of Insert and Extract.
#[tactic(auto, unfolding(crate::specs::Part::part_in, lookups::specs::Verdict::fail_if))]
pub fn insert_extract(x: &Tables<'_, '_, '_>, sheet: &[u64], operation: u64) -> Verdict
    ensures { result ≡ part_arm sheet.now x.now operation }
{
    let source = lookups::operand_tile(x, sheet, operation, 0);
    fail_if(!tiles::is_tile(source), 1)?;
    let output = lookups::result_tile(x, sheet, operation);
    fail_if(!tiles::is_tile(output), 2)?;
    if x.opcode(operation) != INSERT {
        return part_rule(x, sheet, operation, output, source, 1);
    }
    let into = lookups::operand_tile(x, sheet, operation, 1);
    fail_if(!tiles::same_tile(into, output), 3)?;
    part_rule(x, sheet, operation, source, output, 2)
}
