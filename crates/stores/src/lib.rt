// One line of each kind of the house text, judged and stored as an entry of its table.
#![tactic(auto)]

ghost use Rattle.std.specs.Prelude.{◌≡◌, ◌+◌, ◌*◌, leb};
ghost use Rattle.fields.specs.Cut.{split};
ghost use Rattle.lines.specs.Line.{type_line, value_line, function_line};
ghost use Rattle.lines.specs.Into.{left};
ghost use Rattle.stores.specs.declared.Unstored.TheVariants.{Bad};
ghost use Rattle.stores.specs.Store.{type_store, value_store, function_store, both, operation_store, attribute_store, block_store, region_store, one_attribute_more};

use cells::narrow;
use lines::BadField;

// Why a line is not stored: its bad field, or no room for it.
#[derive(Clone, Copy)]
pub enum Unstored {
    Bad(u64),
    Full,
}

impl From<BadField> for Unstored {
    ghost from_gives = { λ e r. r ≡ Bad e.field };

    fn from(bad: BadField) -> Unstored {
        Unstored::Bad(bad.field)
    }
}

// Storing a line gives the list entries in use after it.
pub fn store_type(line: &[u8], at: u64, n: u64, t: &mut [u64]) -> Result<u64, Unstored>
    ensures { left result t.new ≡ type_store at n (type_line (split 9 line.now)) t.old }
{
    let w = lines::type_line(line)?;
    if tables::MAX_TYPES <= n {
        return Err(Unstored::Full);
    }
    if tables::MAX_RANK < w.rank {
        return Err(Unstored::Full);
    }
    let start = n * tables::TYPE_CELLS;
    let front = [w.form, w.kind, w.pointer, w.padded, w.sparse, w.rank, 0, 0];
    lines::put_row(t, start, &front);
    lines::put_row(t, start + 8, &w.dims);
    Ok(at)
}

pub fn store_value(line: &[u8], at: u64, n: u64, v: &mut [u64]) -> Result<u64, Unstored>
    ensures { left result v.new ≡ value_store at n (value_line (split 9 line.now)) v.old }
{
    let w = lines::value_line(line)?;
    if tables::MAX_VALUES <= n {
        return Err(Unstored::Full);
    }
    let row = match w.claim {
        Some(claim) => [w.type_id, 1, claim.operation, claim.index],
        None => [w.type_id, 0, 0, 0],
    };
    lines::put_row(v, n * tables::VALUE_CELLS, &row);
    Ok(at)
}

pub fn store_function(line: &[u8], at: u64, n: u64, f: &mut [u32]) -> Result<u64, Unstored>
    ensures { left result f.new ≡ function_store at n (function_line (split 9 line.now)) f.old }
{
    let operation = lines::function_line(line)?;
    if tables::MAX_FUNCTIONS <= n {
        return Err(Unstored::Full);
    }
    cells::put(f, n, narrow(operation));
    Ok(at)
}

// Whether three lists more have room in the list entries.
fn has_room(at: u64, first: u64, second: u64, third: u64) -> bool
    ensures { result ≡ leb (at + (first + second + third)) 8192 }
{
    let lists = first.saturating_add(second).saturating_add(third);
    at.saturating_add(lists) <= tables::MAX_ENTRIES
}

// The attributes from first on are to follow.
pub fn store_operation(
    line: &[u8],
    at: u64,
    n: u64,
    first: u64,
    o: &mut [u32],
    l: &mut [u64],
) -> Result<u64, Unstored>
    ensures { both result o.new l.new ≡ operation_store at n first (split 9 line.now) o.old l.old }
{
    let w = lines::operation_line(line, at, l)?;
    if tables::MAX_OPERATIONS <= n {
        return Err(Unstored::Full);
    }
    if !has_room(at, w.results, w.operands, w.regions) {
        return Err(Unstored::Full);
    }
    let second = at + w.results;
    let third = second + w.operands;
    let lists = [
        narrow(w.opcode),
        narrow(at),
        narrow(w.results),
        narrow(second),
        narrow(w.operands),
        narrow(third),
        narrow(w.regions),
        narrow(first),
    ];
    let start = n * tables::OPERATION_CELLS;
    lines::put_row(o, start, &lists);
    lines::put_row(o, start + 8, &[0u32; 8]);
    Ok(third + w.regions)
}

pub fn store_attribute(
    line: &[u8],
    at: u64,
    n: u64,
    a: &mut [u32],
    l: &mut [u64],
) -> Result<u64, Unstored>
    ensures { both result a.new l.new ≡ attribute_store at n (split 9 line.now) a.old l.old }
{
    let w = lines::attribute_line(line, at, l)?;
    if tables::MAX_ATTRIBUTES <= n {
        return Err(Unstored::Full);
    }
    if !has_room(at, w.count, 0, 0) {
        return Err(Unstored::Full);
    }
    let row = [
        narrow(w.name),
        narrow(w.form),
        narrow(at),
        narrow(w.count),
        narrow(w.missing),
        0,
        0,
        0,
    ];
    lines::put_row(a, n * tables::ATTRIBUTE_CELLS, &row);
    Ok(at + w.count)
}

pub fn store_block(
    line: &[u8],
    at: u64,
    n: u64,
    b: &mut [u32],
    l: &mut [u64],
) -> Result<u64, Unstored>
    ensures { both result b.new l.new ≡ block_store at n (split 9 line.now) b.old l.old }
{
    let w = lines::block_line(line, at, l)?;
    if tables::MAX_BLOCKS <= n {
        return Err(Unstored::Full);
    }
    if !has_room(at, w.arguments, w.operations, 0) {
        return Err(Unstored::Full);
    }
    let second = at + w.arguments;
    let row = [
        narrow(at),
        narrow(w.arguments),
        narrow(second),
        narrow(w.operations),
    ];
    lines::put_row(b, n * tables::BLOCK_CELLS, &row);
    Ok(second + w.operations)
}

pub fn store_region(
    line: &[u8],
    at: u64,
    n: u64,
    r: &mut [u32],
    l: &mut [u64],
) -> Result<u64, Unstored>
    ensures { both result r.new l.new ≡ region_store at n (split 9 line.now) r.old l.old }
{
    let blocks = lines::region_line(line, at, l)?;
    if tables::MAX_REGIONS <= n {
        return Err(Unstored::Full);
    }
    if !has_room(at, blocks, 0, 0) {
        return Err(Unstored::Full);
    }
    let row = [narrow(at), narrow(blocks)];
    lines::put_row(r, n * tables::REGION_CELLS, &row);
    Ok(at + blocks)
}

// One attribute more for an operation.
pub fn count_attribute(o: &mut [u32], operation: u64)
    ensures { o.new ≡ one_attribute_more o.old (operation * 16 + 8) }
{
    let count = cells::cell(o, tables::OPERATION_CELLS, operation, 8);
    cells::put_cell(o, tables::OPERATION_CELLS, operation, 8, narrow(count + 1));
}
