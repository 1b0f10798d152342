//! A search among pairs of cuts for an edge that is there already, and what one joined pair does to it.
ghost use Rattle.std.specs.Prelude.{◌≡◌, ◌+◌, ◌<◌, ◌≤◌, [], length};
ghost use Rattle.model.specs.Search.{considered};
ghost use Rattle.model.specs.Sessions.{positions};
ghost use Rattle.cuts.specs.Outcomes.{joined_of};
ghost use Rattle.search.specs.Finding.{told, look_in, places_of, listed};

use crate::decision::Existing;
use cuts::{Cut, CutKey, Edge, Squeezed};
use lookup::{DistinctList, SlotTable};

/// The edges of known keys, the most leaves that a joined cut may have, and the candidates so far.
#[derive(Drop)]
pub(crate) struct Search<'k, 't, 'p> {
    pub(crate) keys: &'k SlotTable<'t, CutKey>,
    pub(crate) limit: usize,
    pub(crate) found: DistinctList<'p, Cut>,
}

impl<'k, 't, 'p> Search<'k, 't, 'p> {
    /// What a joined pair does to the search: it is passed over, ends the search, or is a candidate if its key is new.
    pub(crate) fn consider(&mut self, joined: Option<Squeezed>) -> Option<Existing>
        requires { self.old.found.list.count < places_of self.old.found }
        ensures keys { self.new.keys ≡ self.old.keys }
        ensures limit { self.new.limit ≡ self.old.limit }
        ensures room { places_of self.new.found ≡ places_of self.old.found }
        ensures next { self.new.found.list.count ≤ self.old.found.list.count + 1 }
        ensures is { told result (listed self.new.found) ≡ considered positions (look_in self.old.keys.now) (joined_of joined) (listed self.old.found) }
    {
        match joined? {
            Squeezed::Constant(sign) => Some(Existing::Folded { node: 0, sign }),
            Squeezed::Cut(cut) => {
                let (key, sign) = cut.key();
                if let [node] = *cut.leaves() {
                    return Some(Existing::Folded { node, sign });
                }
                match self.keys.find(&key) {
                    Some(edge) => Some(Existing::Merged(Edge::new(edge).complement_if(sign))),
                    None => {
                        let _ = self.found.add(cut);
                        None
                    }
                }
            }
        }
    }
}
