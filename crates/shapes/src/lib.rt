//! Shapes of a lattice: edges, axes, and the places along them.
#![tactic(auto)]

mod edges;
mod place;
mod shape;

pub use shape::{Axis, Edge, Outline, Shape};
