//! Stores of tiles: what every store is and keeps, plain memory, card images, bit stores, and windows.
#![tactic(auto)]

mod image;
mod layout;
mod packing;
mod raw;
mod refuse;
mod tile_store;
mod window;

pub use image::{Bits, Card, Image, Memory};
pub use refuse::{ABOVE_TOP, PAST_COUNT, WORN, any_above, fault, raised};
pub use tile_store::TileStore;
pub use window::Window;
