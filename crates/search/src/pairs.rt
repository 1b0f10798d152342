//! Each cut of one fanin with each cut of the other.
ghost use Rattle.std.specs.Prelude.{◌≡◌, ◌+◌, ◌<◌, ◌≤◌, min, length, take};
ghost use Rattle.model.specs.Edges.{sign_of};
ghost use Rattle.model.specs.Cuts.{joined};
ghost use Rattle.model.specs.Search.{search_row, search_all};
ghost use Rattle.model.specs.Sessions.{positions};
ghost use Rattle.cuts.specs.Meaning.{meaning};
ghost use Rattle.search.specs.Finding.{told, look_in, places_of, listed};
ghost use Rattle.search.specs.Fanins.{most, most_cuts, most_pairs, cuts_of};

use crate::consider::Search;
use crate::decision::Existing;
use crate::fanin::Fanin;
use crate::sizes::KEPT;
use cuts::{Cut, SignedCut, join};
use std::iter;

impl<'a> Fanin<'a> {
    /// The cuts that count beside the trivial one.
    fn kept(&self) -> &[Cut]
        ensures { result.now ≡ take most self.now.cuts.now }
    {
        &self.cuts[..self.cuts.len().min(KEPT)]
    }
}

impl<'k, 't, 'p> Search<'k, 't, 'p> {
    /// Joins a cut, with its sign, with each cut of the fanin until a pair ends the search.
    fn search_row(&mut self, x: SignedCut, y: &Fanin) -> Option<Existing>
        requires { self.old.found.list.count + most_cuts ≤ places_of self.old.found }
        ensures keys { self.new.keys ≡ self.old.keys }
        ensures limit { self.new.limit ≡ self.old.limit }
        ensures room { places_of self.new.found ≡ places_of self.old.found }
        ensures next { self.new.found.list.count ≤ self.old.found.list.count + most_cuts }
        ensures is { told result (listed self.new.found)
            ≡ search_row positions (look_in self.old.keys.now) (joined positions (min self.old.limit positions) x.entry.sign (sign_of y.now.edge.number)) (cuts_of y.now) (meaning x.entry.cut.now) (listed self.old.found) }
    {
        let sign = y.edge.sign();
        let trivial = Cut::trivial(y.edge.node());
        for cut in iter::once(&trivial).chain(y.kept()) {
            let joined = join(x, SignedCut { cut, sign }, self.limit);
            if let Some(edge) = self.consider(joined) {
                return Some(edge);
            }
        }
        None
    }

    /// Joins the cuts of both fanins, those of x in the outer loop, until a pair ends the search.
    /// Not one function with `search_row`: it goes over that one's rows, with bounds of its own.
    pub(crate) fn search_cuts(&mut self, x: &Fanin, y: &Fanin) -> Option<Existing>
        requires { self.old.found.list.count + most_pairs ≤ places_of self.old.found }
        ensures { told result (listed self.new.found)
            ≡ search_all positions (look_in self.old.keys.now) (joined positions (min self.old.limit positions) (sign_of x.now.edge.number) (sign_of y.now.edge.number)) (cuts_of x.now) (cuts_of y.now) (listed self.old.found) }
    {
        let sign = x.edge.sign();
        let trivial = Cut::trivial(x.edge.node());
        for cut in iter::once(&trivial).chain(x.kept()) {
            if let Some(edge) = self.search_row(SignedCut { cut, sign }, y) {
                return Some(edge);
            }
        }
        None
    }
}
