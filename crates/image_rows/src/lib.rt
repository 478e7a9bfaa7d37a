//! The worked rows of the base, of images and of listings, as tables of their calls.
#![tactic(auto)]

#[cfg(test)]
mod base;
#[cfg(test)]
mod images;
#[cfg(test)]
mod listing;
