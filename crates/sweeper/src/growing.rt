// One more gate in the reduced graph.
ghost use Rattle.std.specs.Prelude.{◌≡◌, ℕ, ◌+◌, ◌-◌, ◌*◌, ◌<◌, ◌≤◌, List, map, length, Option as Maybe, slice_index_or};
ghost use Rattle.model.specs.Cuts.{Cut as Meant};
ghost use Rattle.cuts.specs.Meaning.{meaning};
ghost use Rattle.cuts.specs.Keys.{key_meaning};
ghost use Rattle.lookup.specs.Hash.{hashed_slot};
ghost use Rattle.lookup.specs.Entries.{Stands, taken};
ghost use Rattle.sweeper.specs.Tables.{Sound, image, with_cuts, with_keys, with_reduced, stored, used_at, no_reduced, Enters, Growable, Grown};

use crate::core_state::Core;
use cuts::{Cut, Edge};
use lookup::FaninPair;
use rankings::LeafFacts;
use search::{KEPT, Node, ReducedRow};

impl<'a> Core<'a> {
    // The kept cuts go to the cut rows of the next node.
    fn store_cuts(&mut self, kept: &[Cut])
        requires few { length kept.now ≤ 4 }
        requires room { 4 * self.old.reduced.count + 4 ≤ length (image self.old).cuts }
        requires fit { self.old.reduced.count < 16384 }
        ensures { image self.new ≡ with_cuts (image self.old) (stored (4 * self.old.reduced.count) kept.now (image self.old).cuts) }
    {
        let first = KEPT * self.reduced.len();
        self.cuts[first..first + kept.len()].copy_from_slice(kept);
    }

    // Each kept key is entered with the edge, complemented for the key's sign.
    fn enter_keys(&mut self, kept: &[Cut], edge: Edge)
        ensures frame { image self.new ≡ with_keys (image self.old) (image self.new).keys }
        ensures enters { Enters kept.now edge.number (image self.old).keys (image self.new).keys }
    {
        for cut in kept {
            let (key, sign) = cut.key();
            let _ = self.keys.enter(key, edge.complement_if(sign).number());
        }
    }

    // One more use of a node.
    fn use_node(&mut self, node: usize)
        requires some { 0 < node }
        requires known { node ≤ self.old.reduced.count }
        requires few { (slice_index_or (image self.old).reduced (node - 1) no_reduced).facts.uses < 65535 }
        ensures { image self.new ≡ with_reduced (image self.old) (used_at (node - 1) (image self.old).reduced) }
    {
        let mut row = self.reduced.items()[node - 1];
        row.facts.uses += 1;
        let _ = self.reduced.set(node - 1, row);
    }

    // The height of a node of the reduced graph.
    fn height_of(&self, node: usize) -> u16
        requires some { 0 < node }
        requires known { node ≤ self.now.reduced.count }
        ensures { result ≡ (slice_index_or (image self.now).reduced (node - 1) no_reduced).facts.height }
    {
        self.reduced.items()[node - 1].facts.height
    }

    // The next node: a gate with these fanins that keeps these cuts. Its plain edge is answered.
    pub(crate) fn grow(&mut self, x: Edge, y: Edge, kept: &[Cut]) -> Edge
        requires sound { Sound (image self.old) }
        requires growable { Growable (image self.old) x.number y.number kept.now }
        ensures grown { Grown (image self.old) x.number y.number kept.now (image self.new) }
        ensures is { result.number ≡ 2 * (self.old.reduced.count + 1) }
    {
        let first = x.node() as usize;
        let second = y.node() as usize;
        let height = self.height_of(first).max(self.height_of(second)) + 1;
        let edge = Edge::new(2 * (self.reduced.len() as u16 + 1));
        self.store_cuts(kept);
        self.enter_keys(kept, edge);
        let pair = FaninPair {
            first: x.number(),
            second: y.number(),
        };
        let _ = self.pairs.enter(pair, edge.number());
        self.use_node(first);
        self.use_node(second);
        let _ = self.reduced.push(ReducedRow {
            node: Node::Gate(x, y),
            facts: LeafFacts { height, uses: 0 },
            kept: kept.len(),
        });
        edge
    }
}
