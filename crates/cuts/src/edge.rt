//! An edge of a graph: twice a node and a sign, and sign 1 complements.
ghost use Rattle.std.specs.Prelude.{◌≡◌, ◌^◌, true, ltb, if◌then◌else◌, Some, None};
ghost use Rattle.model.specs.Edges.{node_of, sign_of, edge, signed};

#[derive(Clone, Copy, PartialEq, Eq, PartialOrd, Ord, Debug)]
pub struct Edge {
    number: u16,
}

impl Edge {
    /// The plain edge of the constant.
    pub const FALSE: Edge = Edge { number: 0 };
    /// The complemented edge of the constant.
    pub const TRUE: Edge = Edge { number: 1 };

    // `new`, `number` and `of` and no `From` or `TryFrom`: contracts and callers name them, and a second name for each would say no more.
    /// The edge of a number.
    pub fn new(number: u16) -> Edge
        ensures { result.number ≡ number }
    {
        Edge { number }
    }

    /// The edge of a node with a sign, or none if its number does not fit.
    pub fn of(node: u16, sign: bool) -> Option<Edge>
        ensures { result ≡ (if ltb (edge node sign) (2 ^ 16) then Some (record { number = edge node sign }) else None) }
    {
        if node > u16::MAX / 2 {
            return None;
        }
        Some(Edge {
            number: 2 * node + sign as u16,
        })
    }

    /// Twice the node and the sign.
    pub fn number(self) -> u16
        ensures { result ≡ self.number }
    {
        let Self { number } = self;
        number
    }

    /// The node.
    pub fn node(self) -> u16
        ensures { result ≡ node_of self.number }
    {
        self.number / 2
    }

    /// Whether the edge complements its node.
    pub fn sign(self) -> bool
        ensures { result ≡ sign_of self.number }
    {
        self.number % 2 == 1
    }

    /// The edge of the same node with the other sign.
    pub fn complement(self) -> Edge
        ensures { result.number ≡ signed self.number true }
    {
        self.complement_if(true)
    }

    /// The edge, complemented for a sign.
    pub fn complement_if(self, sign: bool) -> Edge
        ensures { result.number ≡ signed self.number sign }
    {
        Edge {
            number: self.number ^ sign as u16,
        }
    }
}
