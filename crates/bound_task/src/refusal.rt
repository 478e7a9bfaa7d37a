/// Why a task gave nothing.
#[derive(Clone, Copy, Debug, PartialEq, Eq)]
pub enum TaskRefusal {
    /// The due graph has more program points than its limit; `count` is one more than that limit.
    Nodes { count: u64 },
    /// No loop of the due graph matches that of an assertion; `line` is the least of the lines of such assertions.
    Unmatched { line: u32 },
    /// More contexts are needed than their limit; `count` is one more than that limit.
    Contexts { count: u64 },
    /// Memory was wanting.
    Want,
}
