// Fanins that are constants, or of one node.
ghost use Rattle.std.specs.Prelude.{◌≡◌};
ghost use Rattle.model.specs.Search.{fold_pair};
ghost use Rattle.sweeper.specs.Answers.{numbered};

use cuts::Edge;

// The edge that the AND of two edges folds to, the smaller given first.
pub(crate) fn fold(x: Edge, y: Edge) -> Option<Edge>
    ensures { numbered result ≡ fold_pair x.number y.number }
{
    if x == Edge::FALSE || x.complement() == y {
        return Some(Edge::FALSE);
    }
    if x == Edge::TRUE {
        return Some(y);
    }
    if x == y {
        return Some(x);
    }
    None
}
