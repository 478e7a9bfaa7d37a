/// What walks through a graph cost, in cycles.
#[derive(Debug, Drop)]
pub struct Costs {
    /// What each walk costs beside its nodes and edges.
    pub start: u64,
    /// What each node costs.
    pub node: Vec<u64>,
    /// What some edges cost, each as the node from which it leads, the node to which it leads, and its cost. The other
    /// edges cost nothing, and where an edge stands more than once its costs add up.
    pub extra: Vec<(u32, u32, u64)>,
}
