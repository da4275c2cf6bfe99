//! Memory, drawn as a picture of plain shapes.
#![tactic(auto)]

mod drawing;
mod picture;
mod rows;
mod scene;
mod shapes;

pub use drawing::{draw, wrong_pictures_are_excluded};
