//! The worked rows of the program's commands, as tables of whole calls over files and a sink in memory.
#![tactic(auto)]

#[cfg(test)]
mod bound;
#[cfg(test)]
mod calls;
#[cfg(test)]
mod decode;
#[cfg(test)]
mod executables;
#[cfg(test)]
mod generated;
#[cfg(test)]
mod graph;
#[cfg(test)]
mod versions;
#[cfg(test)]
mod worked;
