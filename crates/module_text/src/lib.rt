// A whole module text in the house form, read into the lent tables.
#![tactic(auto)]

ghost use Rattle.std.specs.Prelude.{◌≡◌, ◌+◌, leb, ltb, ◌||◌};
ghost use Rattle.tables.specs.Tables.{lent};
ghost use Rattle.house.specs.House.{no_counts};
ghost use Rattle.house.specs.Step.{state_of};
ghost use Rattle.module_text.specs.Whole.{full_size, room, start_of, last_of, house};
ghost use Rattle.module_text.specs.Step.{last_reading};

use house::Reading;
use tables::{Answer, Refusal};

// Whether a slice so long has so many cells; else the size that is asked for answers.
fn full_size(len: u64, cells: u64, size: u64) -> Answer
    ensures { result ≡ full_size (leb cells len) size (Ok tt) }
{
    if len < cells {
        return Err(Refusal::TooShort { needed: size });
    }
    Ok(())
}

// Whether slices so long have room for every entry; the first that has not answers.
#[tactic(auto, unfolding(crate::specs::Whole::room))]
fn room(t: u64, v: u64, o: u64, a: u64, b: u64, r: u64, f: u64, l: u64) -> Answer
    ensures { result ≡ room t v o a b r f l }
{
    full_size(t, tables::MAX_TYPES * tables::TYPE_CELLS, tables::MAX_TYPES)?;
    full_size(
        v,
        tables::MAX_VALUES * tables::VALUE_CELLS,
        tables::MAX_VALUES,
    )?;
    full_size(
        o,
        tables::MAX_OPERATIONS * tables::OPERATION_CELLS,
        tables::MAX_OPERATIONS,
    )?;
    full_size(
        a,
        tables::MAX_ATTRIBUTES * tables::ATTRIBUTE_CELLS,
        tables::MAX_ATTRIBUTES,
    )?;
    full_size(
        b,
        tables::MAX_BLOCKS * tables::BLOCK_CELLS,
        tables::MAX_BLOCKS,
    )?;
    full_size(
        r,
        tables::MAX_REGIONS * tables::REGION_CELLS,
        tables::MAX_REGIONS,
    )?;
    full_size(f, tables::MAX_FUNCTIONS, tables::MAX_FUNCTIONS)?;
    full_size(l, tables::MAX_ENTRIES, tables::MAX_ENTRIES)
}

// Before any line: nothing is read yet, or a table is too short.
pub fn start(
    t: &mut [u64],
    v: &mut [u64],
    o: &mut [u32],
    a: &mut [u32],
    b: &mut [u32],
    r: &mut [u32],
    f: &mut [u32],
    l: &mut [u64],
) -> Reading
    ensures { state_of result (lent t.new v.new o.new a.new b.new r.new f.new l.new no_counts) ≡ start_of (lent t.old v.old o.old a.old b.old r.old f.old l.old no_counts) }
{
    let answer = room(
        t.len() as u64,
        v.len() as u64,
        o.len() as u64,
        a.len() as u64,
        b.len() as u64,
        r.len() as u64,
        f.len() as u64,
        l.len() as u64,
    );
    house::settle(house::first_reading(answer), t, v, o, a, b, r, f, l)
}

// Whether what is left reaches past the text, or the reading is one that no text reaches.
fn past_text(left: u64, bytes: u64, lines: u64, attributes: u64) -> bool
    ensures { result ≡ ltb 65536 (bytes + left) || (ltb 65536 lines || ltb 4096 attributes) }
{
    tables::MAX_TEXT.saturating_sub(bytes) < left
        || tables::MAX_TEXT < bytes
        || tables::MAX_TEXT < lines
        || tables::MAX_ATTRIBUTES < attributes
}

#[tactic(auto, unfolding(crate::specs::Step::last_reading))]
fn last_reading(left: u64, s: Reading) -> Reading
    ensures { result ≡ last_reading s left }
{
    if left == 0 && 0 < s.lines {
        return s;
    }
    if past_text(left, s.bytes, s.lines, s.counts.attributes) {
        return house::refusing(Refusal::OutOfRange { table: 0, entry: 0 });
    }
    house::refusing(Refusal::NotInForm {
        line: s.lines + 1,
        field: 0,
    })
}

// What follows the last LF, so many bytes.
pub fn last_line(
    left: u64,
    s: Reading,
    t: &mut [u64],
    v: &mut [u64],
    o: &mut [u32],
    a: &mut [u32],
    b: &mut [u32],
    r: &mut [u32],
    f: &mut [u32],
    l: &mut [u64],
) -> Reading
    ensures { state_of result (lent t.new v.new o.new a.new b.new r.new f.new l.new no_counts) ≡ last_of (state_of s (lent t.old v.old o.old a.old b.old r.old f.old l.old no_counts)) left }
{
    match s.answer {
        Err(_) => s,
        Ok(()) => house::settle(last_reading(left, s), t, v, o, a, b, r, f, l),
    }
}

// The whole text: one pass, each line by the line core.
pub fn read_module(
    text: &[u8],
    t: &mut [u64],
    v: &mut [u64],
    o: &mut [u32],
    a: &mut [u32],
    b: &mut [u32],
    r: &mut [u32],
    f: &mut [u32],
    l: &mut [u64],
) -> Reading
    ensures { state_of result (lent t.new v.new o.new a.new b.new r.new f.new l.new no_counts) ≡ house text.now (lent t.old v.old o.old a.old b.old r.old f.old l.old no_counts) }
{
    let mut s = start(t, v, o, a, b, r, f, l);
    let mut p: u64 = 0;
    loop {
        // A refusal stays, whatever follows.
        if let Err(_) = s.answer {
            return s;
        }
        let e = fields::find(text, p, b'\n');
        if text.len() as u64 <= e {
            return last_line(e - p, s, t, v, o, a, b, r, f, l);
        }
        s = house::take_line(fields::between(text, p, e), s, t, v, o, a, b, r, f, l);
        p = e + 1;
    }
}
