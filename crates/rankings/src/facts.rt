// What a ranking is told of a cut: of each leaf its height and its uses.
mod make;

ghost use Rattle.std.specs.Prelude.{◌≡◌, ◌<◌, ◌≤◌, length};
ghost use Rattle.model.specs.Sessions.{positions};

// How many leaves a cut has at most; `positions` of the model. Neither this crate nor `cuts`, which has that number too, rests on the other.
pub const MAX_LEAVES: usize = 4;

#[derive(Clone, Copy)]
pub struct LeafFacts {
    pub height: u16,
    pub uses: u16,
}

// The first `count` of `leaves` are the cut's own, in order: a value that is copied, and no heap.
#[derive(Clone, Copy)]
pub struct CutFacts {
    count: usize,
    leaves: [LeafFacts; MAX_LEAVES],
    ghost some: { 0 < count },
    ghost few: { count ≤ positions },
    ghost full: { length leaves ≡ positions },
}
