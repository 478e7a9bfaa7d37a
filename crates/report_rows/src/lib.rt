//! The worked reports and texts of graphs, to the byte: each from outcomes or keys by hand, and an executable with the
//! names of its functions.
#![tactic(auto)]

#[cfg(test)]
mod graphs;
#[cfg(test)]
mod images;
#[cfg(test)]
mod outcomes;
#[cfg(test)]
mod reports;
