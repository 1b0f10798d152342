// The graph that was handed in, or the graph that was built.
#[derive(Clone, Copy)]
pub enum Side {
    Source,
    Reduced,
}
