// Code 2: the lowest operation, block or region that is listed twice, in one list or two.
#![tactic(auto)]

ghost use Rattle.std.specs.Prelude.{◌≡◌, ℕ, List, ◌<◌};
ghost use Rattle.cells.specs.Lists.{below, flat};
ghost use Rattle.tables.specs.Tables.{functions, cut};
ghost use Rattle.listed.specs.Marks.{once_more, mark, mark_all, lowest_marked, lowest_seen};
ghost use Rattle.listed.specs.Twice.{listed_operations, refused, listed_twice};

use tables::{Answer, Refusal, Tables};

// A list for each number, by who has one for any.
pub trait Lists {
    ghost gives: { Self → ℕ → List ℕ → Type 0 };

    fn list(&self, i: u64) -> &[u64]
        ensures { gives self.now i result.now };
}

// A mark, once more.
#[tactic(auto, unfolding(crate::specs::Marks::once_more))]
fn once_more(m: u64) -> u64
    ensures { result ≡ once_more m }
{
    if m == 0 { 1 } else { 2 }
}

// One more of x.
#[tactic(auto, unfolding(crate::specs::Marks::mark))]
fn add_mark(marks: &mut [u64], x: u64)
    ensures { marks.new ≡ mark marks.old x }
{
    let m = once_more(cells::at(marks, x));
    cells::put(marks, x, m);
}

// One more of each entry of a list.
pub fn mark_list(xs: &[u64], marks: &mut [u64])
    ensures { marks.new ≡ mark_all marks.old xs.now }
{
    for &x in xs {
        add_mark(marks, x);
    }
}

// One more of each entry of each of so many lists, by a closure.
fn mark_lists_by<'a, F: Fn(u64) -> &'a [u64]>(count: u64, list: F, marks: &mut [u64])
    requires { F.IsAlwaysCallable list }
    ensures { (entries : ℕ → List ℕ) → ((i : ℕ) (r : _) → i < count → F.post list i r → r.now ≡ entries i) → marks.new ≡ mark_all marks.old (flat entries (below count)) }
{
    for i in 0..count {
        mark_list(list(i), marks);
    }
}

// One more of each entry of each of so many lists.
pub fn mark_lists<L: Lists>(count: u64, lists: &L, marks: &mut [u64])
    ensures { (entries : ℕ → List ℕ) → ((i : ℕ) (xs : List ℕ) → i < count → L.gives lists.now i xs → xs ≡ entries i) → marks.new ≡ mark_all marks.old (flat entries (below count)) }
{
    mark_lists_by(count, |i| lists.list(i), marks);
}

// One more of each function's operation.
fn mark_functions(x: &Tables<'_, '_, '_>, marks: &mut [u64])
    ensures { marks.new ≡ mark_all marks.old (functions x.now) }
{
    for &id in x.functions() {
        add_mark(marks, u64::from(id));
    }
}

// The lowest of n ids that is marked more than once is refused, with the number of its kind.
#[tactic(auto, using(crate::proofs::Find::later_start, crate::proofs::Find::find_step), unfolding(crate::specs::Marks::lowest_marked))]
fn lowest_marked(marks: &[u64], n: u64, list: u64) -> Answer
    ensures { result ≡ refused list (lowest_marked marks.now n) }
{
    for id in 0..n {
        if 1 < cells::at(marks, id) {
            return Err(Refusal::ListedTwice { id, list });
        }
    }
    Ok(())
}

// An operation that functions and blocks list twice.
fn twice_operations(x: &Tables<'_, '_, '_>) -> Answer
    ensures { result ≡ refused 0 (lowest_seen 2048 (listed_operations x.now) x.now.counts.operations) }
{
    let mut marks = [0u64; 2048];
    mark_functions(x, &mut marks);
    mark_lists_by(x.counts().blocks, |j| x.operations(j), &mut marks);
    lowest_marked(&marks, x.counts().operations, 0)
}

// One of so many blocks or regions that so many lists have twice.
fn twice_listed<'a, F: Fn(u64) -> &'a [u64]>(count: u64, list: F, ids: u64, kind: u64) -> Answer
    requires { F.IsAlwaysCallable list }
    ensures { (entries : ℕ → List ℕ) → ((i : ℕ) (r : _) → i < count → F.post list i r → r.now ≡ entries i) → result ≡ refused kind (lowest_seen 512 (flat entries (below count)) ids) }
{
    let mut marks = [0u64; 512];
    mark_lists_by(count, list, &mut marks);
    lowest_marked(&marks, ids, kind)
}

// What is listed twice: operations before blocks before regions, the lowest id.
#[tactic(auto, using(crate::proofs::Marks::seen_is), unfolding(crate::specs::Twice::listed_twice))]
pub fn listed_twice(x: &Tables<'_, '_, '_>) -> Answer
    ensures { result ≡ listed_twice (cut x.now) }
{
    let x = x.cut();
    let n = x.counts();
    twice_operations(&x)?;
    twice_listed(n.regions, |k| x.blocks(k), n.blocks, 1)?;
    twice_listed(n.operations, |i| x.regions(i), n.regions, 2)
}

#[cfg(test)]
mod tests {
    use super::*;

    // The same list for each number.
    #[derive(Drop)]
    struct Each<'a>(&'a [u64]);

    impl<'a> Lists for Each<'a> {
        ghost gives = { λ e _ xs. xs ≡ e.0.now };

        fn list(&self, _i: u64) -> &[u64] {
            self.0
        }
    }

    #[test]
    fn a_second_list_marks_once_more(rt: HostRuntime) {
        let mut marks = [0u64; 4];
        mark_lists(1, &Each(&[1, 3]), &mut marks);
        assert_eq!(rt; marks, [0, 1, 0, 1]);
        mark_lists(1, &Each(&[3, 9]), &mut marks);
        assert_eq!(rt; marks, [0, 1, 0, 2]);
    }
}
