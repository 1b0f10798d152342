// A gate call: folded, shared, merged or made.
ghost use Rattle.std.specs.Prelude.{◌≡◌, ℕ, suc, ◌-◌, ◌^◌, ◌<◌, ◌≤◌, min, max, false, map, length};
ghost use Rattle.model.specs.Edges.{node_of, edge};
ghost use Rattle.model.specs.Search.{made};
ghost use Rattle.model.specs.Sessions.{map_edge, with_gate, swept, was_made};
ghost use Rattle.cuts.specs.Meaning.{meaning};
ghost use Rattle.search.specs.Finding.{existing};
ghost use Rattle.sweeper.specs.declared.tally.Outcome.TheVariants as outcomes;
ghost use Rattle.cuts.specs.declared.edge.Edge.{Edge as EdgeOf};
ghost use Rattle.sweeper.specs.Tallies.{count_of};
ghost use Rattle.sweeper.specs.Tables.{Sound, image, state_of, graph_of, after_edge, Growable, Rest};
ghost use Rattle.sweeper.specs.Answers.{told_swept, swept_in, Gates, GateExtends, NodeFits, Refused};

use crate::accepting::Swept;
use crate::core_state::Core;
use crate::folding::fold;
use crate::refusal::Refusal;
use crate::session::Session;
use crate::tally::Outcome;
use cuts::{Cut, Edge};
use lookup::FaninPair;
use rankings::Ranking;
use search::{Decision, Existing, KEPT};

impl<'a> Core<'a> {
    // A new gate: the source gate maps to the next reduced node.
    fn make(&mut self, a: Edge, b: Edge, x: Edge, y: Edge, kept: &[Cut]) -> Swept
        requires sound { Sound (image self.old) }
        requires room { self.old.source.count < self.old.capacity }
        requires few { (o : Outcome) → count_of self.old.tally o < 2 ^ 32 - 1 }
        requires growable { (m : EdgeOf) → Growable (after_edge (image self.old) a b outcomes.Made m) x.number y.number kept.now }
        ensures kept { Sound (image self.new) }
        ensures state { state_of (image self.new) ≡ (with_gate (state_of (image self.old)) a.number b.number x.number y.number (made (map meaning kept.now))).state }
        ensures rest { Rest (image self.old) (image self.new) }
        ensures is { swept_in result ≡ swept was_made (edge (suc (length (graph_of (image self.old)))) false) }
    {
        let edge = Edge::new(2 * (self.reduced.len() as u16 + 1));
        let answer = self.accept(a, b, Outcome::Made, edge);
        let _ = self.grow(x, y, kept);
        answer
    }

    // An edge that is there already.
    fn reuse(&mut self, a: Edge, b: Edge, found: Existing) -> Swept
        requires sound { Sound (image self.old) }
        requires room { self.old.source.count < self.old.capacity }
        requires few { (o : Outcome) → count_of self.old.tally o < 2 ^ 32 - 1 }
        requires fits { NodeFits found }
        ensures kept { Sound (image self.new) }
        ensures state { (x y : ℕ) → state_of (image self.new) ≡ (with_gate (state_of (image self.old)) a.number b.number x y (existing found)).state }
        ensures rest { Rest (image self.old) (image self.new) }
        ensures is { swept_in result ≡ (with_gate (state_of (image self.old)) a.number b.number 0 0 (existing found)).answer }
    {
        match found {
            Existing::Folded { node, sign } => {
                let edge = Edge::new(2 * node + sign as u16);
                self.accept(a, b, Outcome::Folded, edge)
            }
            Existing::Merged(edge) => self.accept(a, b, Outcome::Merged, edge),
        }
    }
}

impl<'a> Session<'a> {
    // The two edges of a gate stand as two parameters, as callers have them; only `sweep` and `make` take the mapped ones too, so the four have no struct.
    // The mapped fanins, the smaller first, folded, looked up as a pair, and then by their cuts.
    fn sweep<R: Ranking>(&mut self, by: &R, a: Edge, b: Edge, x: Edge, y: Edge) -> Swept
        requires first { node_of a.number ≤ self.old.core.source.count }
        requires second { node_of b.number ≤ self.old.core.source.count }
        requires room { self.old.core.source.count < self.old.core.capacity }
        requires low { x.number ≡ min (map_edge (state_of (image self.old.core)) a.number) (map_edge (state_of (image self.old.core)) b.number) }
        requires high { y.number ≡ max (map_edge (state_of (image self.old.core)) a.number) (map_edge (state_of (image self.old.core)) b.number) }
        ensures gates { Gates (R.Ranking.before by.now) R.Ranking.INPUTS_FIRST (state_of (image self.old.core)) a.number b.number (state_of (image self.new.core)) (swept_in result) }
        ensures rest { Rest (image self.old.core) (image self.new.core) }
    {
        if let Some(edge) = fold(x, y) {
            return self.core.accept(a, b, Outcome::Folded, edge);
        }
        let pair = FaninPair {
            first: x.number(),
            second: y.number(),
        };
        if let Some(edge) = self.core.pairs.find(&pair) {
            return self.core.accept(a, b, Outcome::Shared, Edge::new(edge));
        }
        let mut kept = [Cut::trivial(0); KEPT];
        match self.decide(by, x, y, &mut kept) {
            Decision::Existing(found) => self.core.reuse(a, b, found),
            Decision::Made(n) => self.core.make(a, b, x, y, &kept[..n]),
        }
    }

    // Sweeps a gate by a ranking of this call's own.
    pub fn gate<R: Ranking>(&mut self, by: &R, a: Edge, b: Edge) -> Result<Swept, Refusal>
        ensures runs { GateExtends (R.Ranking.before by.now) R.Ranking.INPUTS_FIRST (state_of (image self.old.core)) a.number b.number (state_of (image self.new.core)) (told_swept result) }
        ensures rest { Rest (image self.old.core) (image self.new.core) }
        ensures refused { Refused result (image self.new.core ≡ image self.old.core) }
    {
        let p = self.mapped_edge(a, 0)?;
        let q = self.mapped_edge(b, 1)?;
        if self.core.source.len() >= self.core.capacity {
            return Err(Refusal::AtCapacity(self.core.capacity));
        }
        Ok(self.sweep(by, a, b, p.min(q), p.max(q)))
    }
}
