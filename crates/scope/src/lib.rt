// The growing scope: a small value handed on and handed back, over a counted stack of live values that rolls back.
#![tactic(auto)]

ghost use Rattle.std.specs.Prelude.{◌≡◌, List, ℕ, replicate};
ghost use Rattle.cells.specs.Lists.{mem};
ghost use Rattle.tables.specs.Place.{position_from};
ghost use Rattle.scope.specs.Stack.{see, see_all, Shows, Holds, number_in, deeper};

// The number of a live value: its place among the first `next` of the stack.
pub fn position(dense: &[u64], sparse: &[u64], next: u64, v: u64) -> Option<u64>
    ensures { (nv : ℕ) (live : List ℕ) → Shows nv dense.now sparse.now next live → number_in result ≡ position_from 0 v live }
{
    let k = cells::at(sparse, v);
    if next <= k || cells::at(dense, k) != v {
        return None;
    }
    Some(k)
}

pub fn is_live(dense: &[u64], sparse: &[u64], next: u64, v: u64) -> bool
    ensures { (nv : ℕ) (live : List ℕ) → Shows nv dense.now sparse.now next live → result ≡ mem v live }
{
    position(dense, sparse, next, v).is_some()
}

// How many values are live, and how many blocks deeper the walk may go.
#[derive(Clone, Copy)]
pub struct Scope {
    pub next: u64,
    pub depth: u64,
}

impl Scope {
    // One block deeper.
    pub fn enter(mut self) -> Self
        ensures { result ≡ deeper self }
    {
        self.depth = self.depth.saturating_sub(1);
        self
    }

    // Back to where the scope stood.
    pub fn roll_back(mut self, saved: Scope) -> Self
        ensures { result ≡ saved }
    {
        self.next = saved.next;
        self.depth = saved.depth;
        self
    }

    // v is live from now on, where it is one of nv values. A stack of fewer has room for a value that is not on it.
    pub fn add(mut self, dense: &mut [u64], sparse: &mut [u64], nv: u64, v: u64) -> Self
        ensures depth_value { result.depth ≡ self.depth }
        ensures by_index { (live : List ℕ) → Shows nv dense.old sparse.old self.next live → Shows nv dense.new sparse.new result.next (see nv live v) }
    {
        let next = self.next;
        if nv <= v || nv <= next || is_live(dense, sparse, next, v) {
            return self;
        }
        cells::put(dense, next, v);
        cells::put(sparse, v, next);
        self.next = next + 1;
        self
    }

    // Each of the values is live from now on.
    pub fn add_all(self, dense: &mut [u64], sparse: &mut [u64], nv: u64, values: &[u64]) -> Self
        ensures depth_value { result.depth ≡ self.depth }
        ensures by_index { (live : List ℕ) → Shows nv dense.old sparse.old self.next live → Shows nv dense.new sparse.new result.next (see_all nv live values.now) }
    {
        let mut scope = self;
        for &v in values {
            scope = scope.add(dense, sparse, nv, v);
        }
        scope
    }
}

// A stack of its own: what stands at each place, where each value would stand, and how many values there are. A walk hands it on as one.
#[derive(Drop)]
pub struct Live<const N: usize> {
    pub dense: [u64; N],
    pub sparse: [u64; N],
    pub values: u64,
}

impl<const N: usize> Live<N> {
    // Nothing is live yet.
    pub fn new(values: u64) -> Self
        ensures { result ≡ record { dense = replicate N 0; sparse = replicate N 0; values = values } }
    {
        Live {
            dense: [0; N],
            sparse: [0; N],
            values,
        }
    }

    // The number of a live value.
    pub fn position(&self, next: u64, v: u64) -> Option<u64>
        ensures { (nv : ℕ) (live : List ℕ) → Shows nv self.now.dense self.now.sparse next live → number_in result ≡ position_from 0 v live }
    {
        position(&self.dense, &self.sparse, next, v)
    }

    pub fn is_live(&self, next: u64, v: u64) -> bool
        ensures { (nv : ℕ) (live : List ℕ) → Shows nv self.now.dense self.now.sparse next live → result ≡ mem v live }
    {
        is_live(&self.dense, &self.sparse, next, v)
    }

    // v is live from now on, where it is a value.
    pub fn add(&mut self, scope: Scope, v: u64) -> Scope
        ensures depth_value { result.depth ≡ scope.depth }
        ensures by_index { (nv : ℕ) (live : List ℕ) → Holds nv self.old scope.next live → Holds nv self.new result.next (see nv live v) }
    {
        scope.add(&mut self.dense, &mut self.sparse, self.values, v)
    }

    // Each of the values is live from now on.
    pub fn add_all(&mut self, scope: Scope, values: &[u64]) -> Scope
        ensures depth_value { result.depth ≡ scope.depth }
        ensures by_index { (nv : ℕ) (live : List ℕ) → Holds nv self.old scope.next live → Holds nv self.new result.next (see_all nv live values.now) }
    {
        scope.add_all(&mut self.dense, &mut self.sparse, self.values, values)
    }
}
