use context_inside::Within;

/// A context of a list from within.
#[derive(Drop)]
pub struct Opened {
    /// Its facts and its graph.
    pub within: Within,
    /// For each of its program points, in their order, the number of the context to which its call leads, if one is followed.
    pub links: Vec<Option<usize>>,
}
