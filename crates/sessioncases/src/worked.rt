// Small sessions with gates ranked by height, each for one kind of answer.
use crate::step::Answer::{Edge, Node, Swept};
use crate::step::Call::{Gate, Input, Map};
use crate::step::{Script, Step};
use ranked::RankedBy::Height;
use sweeper::Outcome::{Folded, Made, Merged, Shared};
use sweeper::Refusal::{AtCapacity, NoNode};

pub const WORKED: [Script; 13] = [
    // No room for a node, but the constant still maps.
    Script {
        source: 0,
        reduced: 0,
        cuts: 0,
        pairs: 0,
        keys: 0,
        outputs: 0,
        steps: &[Step(Map(1), Ok(Edge(1))), Step(Input, Err(AtCapacity(0)))],
    },
    // Complementary fanins.
    Script {
        source: 8,
        reduced: 8,
        cuts: 32,
        pairs: 8,
        keys: 32,
        outputs: 8,
        steps: &[
            Step(Input, Ok(Node(1))),
            Step(Input, Ok(Node(2))),
            Step(Gate(Height, 2, 3), Ok(Swept(Folded, 0))),
        ],
    },
    // A true fanin.
    Script {
        source: 8,
        reduced: 8,
        cuts: 32,
        pairs: 8,
        keys: 32,
        outputs: 8,
        steps: &[
            Step(Input, Ok(Node(1))),
            Step(Input, Ok(Node(2))),
            Step(Gate(Height, 2, 1), Ok(Swept(Folded, 2))),
        ],
    },
    // A gate of two inputs.
    Script {
        source: 8,
        reduced: 8,
        cuts: 32,
        pairs: 8,
        keys: 32,
        outputs: 8,
        steps: &[
            Step(Input, Ok(Node(1))),
            Step(Input, Ok(Node(2))),
            Step(Gate(Height, 2, 5), Ok(Swept(Made, 6))),
        ],
    },
    // Swapped fanins.
    Script {
        source: 8,
        reduced: 8,
        cuts: 32,
        pairs: 8,
        keys: 32,
        outputs: 8,
        steps: &[
            Step(Input, Ok(Node(1))),
            Step(Input, Ok(Node(2))),
            Step(Gate(Height, 2, 5), Ok(Swept(Made, 6))),
            Step(Gate(Height, 5, 2), Ok(Swept(Shared, 6))),
        ],
    },
    // An absorbed leaf.
    Script {
        source: 8,
        reduced: 8,
        cuts: 32,
        pairs: 8,
        keys: 32,
        outputs: 8,
        steps: &[
            Step(Input, Ok(Node(1))),
            Step(Input, Ok(Node(2))),
            Step(Gate(Height, 3, 5), Ok(Swept(Made, 6))),
            Step(Gate(Height, 2, 7), Ok(Swept(Folded, 2))),
        ],
    },
    // A contradiction.
    Script {
        source: 8,
        reduced: 8,
        cuts: 32,
        pairs: 8,
        keys: 32,
        outputs: 8,
        steps: &[
            Step(Input, Ok(Node(1))),
            Step(Input, Ok(Node(2))),
            Step(Gate(Height, 3, 5), Ok(Swept(Made, 6))),
            Step(Gate(Height, 2, 6), Ok(Swept(Folded, 0))),
        ],
    },
    // An unknown second fanin.
    Script {
        source: 8,
        reduced: 8,
        cuts: 32,
        pairs: 8,
        keys: 32,
        outputs: 8,
        steps: &[
            Step(Input, Ok(Node(1))),
            Step(Input, Ok(Node(2))),
            Step(Gate(Height, 2, 6), Err(NoNode(1))),
        ],
    },
    // An equivalence in two forms.
    Script {
        source: 8,
        reduced: 8,
        cuts: 32,
        pairs: 8,
        keys: 32,
        outputs: 8,
        steps: &[
            Step(Input, Ok(Node(1))),
            Step(Input, Ok(Node(2))),
            Step(Gate(Height, 2, 5), Ok(Swept(Made, 6))),
            Step(Gate(Height, 3, 4), Ok(Swept(Made, 8))),
            Step(Gate(Height, 7, 9), Ok(Swept(Made, 10))),
            Step(Gate(Height, 3, 5), Ok(Swept(Made, 12))),
            Step(Gate(Height, 2, 4), Ok(Swept(Made, 14))),
            Step(Gate(Height, 13, 15), Ok(Swept(Merged, 11))),
        ],
    },
    // The same, and where the last gate maps to.
    Script {
        source: 8,
        reduced: 8,
        cuts: 32,
        pairs: 8,
        keys: 32,
        outputs: 8,
        steps: &[
            Step(Input, Ok(Node(1))),
            Step(Input, Ok(Node(2))),
            Step(Gate(Height, 2, 5), Ok(Swept(Made, 6))),
            Step(Gate(Height, 3, 4), Ok(Swept(Made, 8))),
            Step(Gate(Height, 7, 9), Ok(Swept(Made, 10))),
            Step(Gate(Height, 3, 5), Ok(Swept(Made, 12))),
            Step(Gate(Height, 2, 4), Ok(Swept(Made, 14))),
            Step(Gate(Height, 13, 15), Ok(Swept(Merged, 11))),
            Step(Map(16), Ok(Edge(11))),
            Step(Map(17), Ok(Edge(10))),
        ],
    },
    // A regrouped product of four inputs.
    Script {
        source: 9,
        reduced: 9,
        cuts: 36,
        pairs: 9,
        keys: 36,
        outputs: 9,
        steps: &[
            Step(Input, Ok(Node(1))),
            Step(Input, Ok(Node(2))),
            Step(Input, Ok(Node(3))),
            Step(Input, Ok(Node(4))),
            Step(Gate(Height, 2, 4), Ok(Swept(Made, 10))),
            Step(Gate(Height, 6, 8), Ok(Swept(Made, 12))),
            Step(Gate(Height, 10, 12), Ok(Swept(Made, 14))),
            Step(Gate(Height, 6, 10), Ok(Swept(Made, 16))),
            Step(Gate(Height, 8, 16), Ok(Swept(Merged, 14))),
        ],
    },
    // A product of five inputs.
    Script {
        source: 9,
        reduced: 9,
        cuts: 36,
        pairs: 9,
        keys: 36,
        outputs: 9,
        steps: &[
            Step(Input, Ok(Node(1))),
            Step(Input, Ok(Node(2))),
            Step(Input, Ok(Node(3))),
            Step(Input, Ok(Node(4))),
            Step(Input, Ok(Node(5))),
            Step(Gate(Height, 2, 4), Ok(Swept(Made, 12))),
            Step(Gate(Height, 6, 12), Ok(Swept(Made, 14))),
            Step(Gate(Height, 8, 10), Ok(Swept(Made, 16))),
            Step(Gate(Height, 14, 16), Ok(Swept(Made, 18))),
        ],
    },
    // The equivalence, its other form first.
    Script {
        source: 8,
        reduced: 8,
        cuts: 32,
        pairs: 8,
        keys: 32,
        outputs: 8,
        steps: &[
            Step(Input, Ok(Node(1))),
            Step(Input, Ok(Node(2))),
            Step(Gate(Height, 3, 5), Ok(Swept(Made, 6))),
            Step(Gate(Height, 2, 4), Ok(Swept(Made, 8))),
            Step(Gate(Height, 7, 9), Ok(Swept(Made, 10))),
            Step(Gate(Height, 2, 5), Ok(Swept(Made, 12))),
            Step(Gate(Height, 3, 4), Ok(Swept(Made, 14))),
            Step(Gate(Height, 13, 15), Ok(Swept(Merged, 11))),
        ],
    },
];
