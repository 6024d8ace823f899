// What an exported function takes and leaves: counts in a slice of seven, and an answer's three numbers in a slice.
#![tactic(auto)]

ghost use Rattle.std.specs.Prelude.{◌≡◌};
ghost use Rattle.answers.specs.Noted.{counts_of, told, noted, header_noted, counts_noted};

use house::Reading;
use tables::{Counts, Numbers, Refusal};

// The seven counts, in the tables' order.
pub fn counts_of(n: &[u64]) -> Counts
    ensures { result ≡ counts_of n.now }
{
    Counts {
        types: cells::at(n, 0),
        values: cells::at(n, 1),
        operations: cells::at(n, 2),
        attributes: cells::at(n, 3),
        blocks: cells::at(n, 4),
        regions: cells::at(n, 5),
        functions: cells::at(n, 6),
    }
}

// The three numbers of an answer: 0 0 0 where nothing is refused, whatever it holds then.
#[tactic(auto, unfolding(crate::specs::Noted::told, crate::specs::Noted::noted))]
pub fn note_answer<T: Copy>(answer: Result<T, Refusal>, out: &mut [u64])
    ensures { out.new ≡ noted (told answer) out.old }
{
    let n = match answer {
        Ok(_) => Numbers {
            code: 0,
            id: 0,
            detail: 0,
        },
        Err(why) => tables::numbers_of(why),
    };
    cells::put(out, 0, n.code);
    cells::put(out, 1, n.id);
    cells::put(out, 2, n.detail);
}

// The version and the sm number of a text.
#[tactic(auto, unfolding(crate::specs::Noted::header_noted))]
fn note_header(version: u64, sm: u64, out: &mut [u64])
    ensures { out.new ≡ header_noted version sm out.old }
{
    cells::put(out, 0, version);
    cells::put(out, 1, sm);
}

// The seven counts, in the tables' order.
#[tactic(auto, unfolding(crate::specs::Noted::counts_noted))]
fn note_counts(n: Counts, out: &mut [u64])
    ensures { out.new ≡ counts_noted n out.old }
{
    cells::put(out, 0, n.types);
    cells::put(out, 1, n.values);
    cells::put(out, 2, n.operations);
    cells::put(out, 3, n.attributes);
    cells::put(out, 4, n.blocks);
    cells::put(out, 5, n.regions);
    cells::put(out, 6, n.functions);
}

// What a reading says beside the tables.
pub fn note_reading(s: Reading, header: &mut [u64], counts: &mut [u64], answer: &mut [u64])
    ensures header { header.new ≡ header_noted s.version s.sm header.old }
    ensures counts { counts.new ≡ counts_noted s.counts counts.old }
    ensures answer { answer.new ≡ noted (told s.answer) answer.old }
{
    let n = s.counts;
    let said = s.answer;
    note_header(s.version, s.sm, header);
    note_counts(n, counts);
    note_answer(said, answer);
}
