// Code 14: numbers read back to places, by nesting and counts alone. A first walk judges, a second writes.
#![tactic(auto)]

ghost use Rattle.std.specs.Prelude.{◌≡◌, List, [], map, ℕ, ◌<◌, take, length};
ghost use Rattle.cells.specs.Lists.{below};
ghost use Rattle.tables.specs.Tables.{nest};
ghost use Rattle.tables.specs.declared.Place.{Place};
ghost use Rattle.nesting.specs.Shape.{visit};
ghost use Rattle.nesting.specs.Live.{placed, nth};
ghost use Rattle.nesting.specs.ReadBack.{uses_at};
ghost use Rattle.read_back.specs.Alone.{outcome, read_back_alone, spanned, kind_of, id_of, index_of};
ghost use Rattle.read_back.specs.Live.{grow, grow_all, place_in};
ghost use Rattle.read_back.specs.Stage.{staged, start, put_place, read_next, read_all, use_of, judged_all, region_uses, block_uses, inside_uses, entry_uses, entries_uses, Went};

use std::marker::Model;
use tables::{Answer, Counts, Place, Refusal, Tables};

// A place takes this many cells.
const PLACE_CELLS: u64 = 3;

// As many places as lists have entries.
const MAX_LIVE: usize = 8192;

// The live places; a number is a position among them.
#[derive(Drop)]
struct Live {
    places: [Place; MAX_LIVE],
    count: usize,
}

impl Model for Live {
    ghost use Rattle.std.specs.Prelude.{List, take, length, ◌≤◌, ◌≡◌};
    ghost use Rattle.tables.specs.declared.Place.{Place};

    ghost Value = { List Place };

    ghost view = { λ s. take s.count s.places };

    ghost invariant = { λ s. (s.count ≤ 8192) × (length s.places ≡ 8192) };
}

impl Live {
    // Nothing is live yet. Built where it is kept, of places that are all zero bits: a copy of so many shows in every call.
    #[inline(always)]
    fn new() -> Live
        ensures { result ≡ [] }
    {
        Live {
            places: [Place::Argument(0, 0); MAX_LIVE],
            count: 0,
        }
    }

    fn len(&self) -> usize
        ensures { result ≡ length self.now }
    {
        self.count
    }

    // The place of a number.
    fn place(&self, number: u64) -> Option<Place>
        ensures { place_in result ≡ nth self.now number }
    {
        if self.count as u64 <= number {
            return None;
        }
        Some(self.places[number as usize])
    }

    // One place more, where there is room.
    fn push(&mut self, place: Place)
        ensures { self.new ≡ grow self.old place }
    {
        if self.count < MAX_LIVE {
            self.places[self.count] = place;
            self.count += 1;
        }
    }

    // A place for each index below a count.
    fn push_each<F: Fn(u64) -> Place>(&mut self, count: u64, place: F)
        requires { F.IsAlwaysCallable place }
        ensures { (make : ℕ → Place) → ((k : ℕ) (p : Place) → k < count → F.post place k p → p ≡ make k) → self.new ≡ grow_all self.old (map make (below count)) }
    {
        for k in 0..count {
            self.push(place(k));
        }
    }

    // As many as there were.
    fn truncate(&mut self, count: usize)
        ensures { self.new ≡ take count self.old }
    {
        self.count = self.count.min(count);
    }
}

// The kind of a place, 0 for an argument of a block and 1 for a result of an operation, the id of these, and the index.
fn cells_of(place: Place) -> (u64, u64, u64)
    ensures { result ≡ (kind_of place, id_of place, index_of place) }
{
    match place {
        Place::Argument(block, index) => (0, block, index),
        Place::Result(operation, index) => (1, operation, index),
        Place::Nowhere => (2, 0, 0),
    }
}

// A place, to row k of the list.
fn put_place(places: &mut [u64], k: u64, place: Place)
    ensures { places.new ≡ put_place places.old k place }
{
    let (kind, id, index) = cells_of(place);
    cells::put_cell(places, PLACE_CELLS, k, 0, kind);
    cells::put_cell(places, PLACE_CELLS, k, 1, id);
    cells::put_cell(places, PLACE_CELLS, k, 2, index);
}

// On the way: the live places, how many numbers are read, and the first refusal so far.
#[derive(Drop)]
struct Reading {
    pub live: Live,
    pub at: usize,
    pub answer: Answer,
}

// Which numbers are read back over which tables.
#[derive(Clone, Copy)]
struct Reader<'a> {
    pub x: &'a Tables<'a, 'a, 'a>,
    pub numbers: &'a [u64],
}

impl<'a> Reader<'a> {
    // The next number, for an operand at a place of an operation. The first refusal stays, but a list of the wrong length is refused for that.
    fn read_next(&self, reading: &mut Reading, places: &mut [u64], operation: u64, place: u64)
        ensures { Went reading.new places.new reading.old.live (read_next self.now.numbers.now reading.old.live operation place (staged reading.old places.old)) }
    {
        let k = reading.at;
        let Some(&number) = self.numbers.get(k) else {
            reading.answer = Err(Refusal::NotReadable {
                operation: 0,
                place: 0,
            });
            return;
        };
        reading.at = k + 1;
        let Some(found) = reading.live.place(number) else {
            reading.answer = reading
                .answer
                .and(Err(Refusal::NotReadable { operation, place }));
            return;
        };
        put_place(places, k as u64, found);
    }

    // The numbers of so many operands of an operation, in order.
    fn read_operands(&self, reading: &mut Reading, places: &mut [u64], operation: u64, count: u64)
        ensures { Went reading.new places.new reading.old.live (read_all self.now.numbers.now (staged reading.old places.old) (map (use_of operation reading.old.live) (below count))) }
    {
        for k in 0..count {
            self.read_next(reading, places, operation, k + 1);
        }
    }

    // The numbers of an operation's operands; then its results are live.
    fn open_operation(&self, reading: &mut Reading, places: &mut [u64], id: u64)
        ensures { let x = self.now.x.now in let live = reading.old.live in Went reading.new places.new (grow_all live ((placed (spanned x)).results id)) (read_all self.now.numbers.now (staged reading.old places.old) (uses_at (spanned x).operands (visit id live))) }
    {
        self.read_operands(reading, places, id, self.x.operands_span(id).len);
        reading
            .live
            .push_each(self.x.result_types_span(id).len, |k| Place::Result(id, k));
    }

    // Region id: its blocks in order, where a depth is left for them.
    #[cycle(visit_block_visit_operation_visit_region)]
    fn visit_region(&self, reading: &mut Reading, places: &mut [u64], depth: u64, id: u64)
        ensures { Went reading.new places.new reading.old.live (read_all self.now.numbers.now (staged reading.old places.old) (region_uses self.now.x.now depth reading.old.live id)) }
    {
        if depth == 0 {
            return;
        }
        for &block in self.x.blocks(id) {
            self.visit_block(reading, places, depth - 1, block);
        }
    }

    // Block id: its arguments are live, then its operations come in order; what it added is taken back.
    #[cycle(visit_block_visit_operation_visit_region)]
    fn visit_block(&self, reading: &mut Reading, places: &mut [u64], depth: u64, id: u64)
        ensures { Went reading.new places.new reading.old.live (read_all self.now.numbers.now (staged reading.old places.old) (block_uses self.now.x.now depth reading.old.live id)) }
    {
        let before = reading.live.len();
        reading
            .live
            .push_each(self.x.arguments_span(id).len, |k| Place::Argument(id, k));
        for &operation in self.x.operations(id) {
            self.open_operation(reading, places, operation);
            self.visit_operation(reading, places, depth, operation);
        }
        reading.live.truncate(before);
    }

    // Operation id, its results being live: its regions in order.
    #[cycle(visit_block_visit_operation_visit_region)]
    fn visit_operation(&self, reading: &mut Reading, places: &mut [u64], depth: u64, id: u64)
        ensures { Went reading.new places.new reading.old.live (read_all self.now.numbers.now (staged reading.old places.old) (inside_uses self.now.x.now depth reading.old.live id)) }
    {
        for &region in self.x.regions(id) {
            self.visit_region(reading, places, depth, region);
        }
    }

    // The entry walk of a function: the first block of its first region.
    fn read_function(&self, reading: &mut Reading, places: &mut [u64], id: u64)
        ensures { reading.old.live ≡ [] → Went reading.new places.new [] (read_all self.now.numbers.now (staged reading.old places.old) (entry_uses self.now.x.now id)) }
    {
        let Some(&region) = self.x.regions(id).first() else {
            return;
        };
        let Some(&block) = self.x.blocks(region).first() else {
            return;
        };
        self.visit_block(reading, places, tables::MAX_DEPTH - 1, block);
    }
}

// What is said of all numbers, and the places in the list as far as it has room.
pub fn read_all(x: &Tables<'_, '_, '_>, numbers: &[u64], places: &mut [u64]) -> Answer
    ensures { outcome result places.new ≡ judged_all x.now numbers.now places.old }
{
    let reader = Reader { x, numbers };
    let mut reading = Reading {
        live: Live::new(),
        at: 0,
        answer: Ok(()),
    };
    for &id in x.functions() {
        reader.read_function(&mut reading, places, u64::from(id));
    }
    if reading.at != numbers.len() {
        return Err(Refusal::NotReadable {
            operation: 0,
            place: 0,
        });
    }
    reading.answer
}

// The numbers are judged first: a refusal leaves the list of places as it was.
fn read_over(x: &Tables<'_, '_, '_>, numbers: &[u64], places: &mut [u64]) -> Answer
    ensures { outcome result places.new ≡ read_back_alone x.now numbers.now places.old }
{
    nesting_check::check_nesting(x)?;
    let mut none = [0u64; 1];
    read_all(x, numbers, &mut none)?;
    let needed = PLACE_CELLS * numbers.len() as u64;
    if (places.len() as u64) < needed {
        return Err(Refusal::TooShort { needed });
    }
    read_all(x, numbers, places)
}

// Types, values and attributes are not lent.
pub fn read_back(
    o: &[u32],
    b: &[u32],
    r: &[u32],
    f: &[u32],
    l: &[u64],
    n: Counts,
    numbers: &[u64],
    places: &mut [u64],
) -> Answer
    ensures { outcome result places.new ≡ read_back_alone (nest o.now b.now r.now f.now l.now n) numbers.now places.old }
{
    let x = Tables::new(&[], &[], o, &[], b, r, f, l, n);
    read_over(&x, numbers, places)
}
