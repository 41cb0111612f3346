// The curve edwards25519 (RFC 8032, 5.1) and its points in extended coordinates.
#![tactic(auto)]

mod adding;
mod comparing;
mod constants;
mod doubling;
mod finishing;
mod rows;

pub use adding::{summed, summed_thin};
pub use comparing::point_equal;
pub use constants::{zero_flat, zero_point};
pub use doubling::doubled;
use ed25519_field::Fe;
pub use finishing::{with_t, without_t};
pub use rows::{opposite, opposite_thin, row_of};

// A point: x = X/Z, y = Y/Z, x y = T/Z.
#[derive(Clone, Copy)]
pub struct Point {
    pub x: Fe,
    pub y: Fe,
    pub z: Fe,
    pub t: Fe,
}

// A point without its T, which a doubling does not need.
#[derive(Clone, Copy)]
pub struct Flat {
    pub x: Fe,
    pub y: Fe,
    pub z: Fe,
}

// E, F, G and H, of which a point's coordinates are products.
#[derive(Clone, Copy)]
pub struct Ends {
    pub e: Fe,
    pub f: Fe,
    pub g: Fe,
    pub h: Fe,
}

// What an addition takes of its second point: Y - X, Y + X, 2 Z and 2 d T.
#[derive(Clone, Copy)]
pub struct Addend {
    pub minus: Fe,
    pub plus: Fe,
    pub twice: Fe,
    pub scaled: Fe,
}

// The same of a point with Z = 1, whose 2 Z need not be said.
#[derive(Clone, Copy)]
pub struct Thin {
    pub minus: Fe,
    pub plus: Fe,
    pub scaled: Fe,
}
