/// A turn of a loop: a walk from its head through its body, with an edge back from the last node.
///
/// Like a long walk it passes each inner head once, and stands for a walk that passes it as often as its bound allows.
/// `cost` is that of this walk and of the edge back, in cycles, or 2^63 where it is more.
#[derive(Debug, Drop)]
pub struct Turn {
    pub head: u32,
    pub cost: u64,
    pub walk: Vec<u32>,
}

/// A walk from the entry that costs the most: its cost in cycles, with what each walk costs at its start, and its nodes.
///
/// The walk passes each head once, and stands for the walk in which each head is passed as often as its bound allows, each
/// time with the turn of its loop. `turns` has one for each loop, in the order of the loops.
#[derive(Debug, Drop)]
pub struct LongWalk {
    pub cost: u64,
    pub walk: Vec<u32>,
    pub turns: Vec<Turn>,
}
