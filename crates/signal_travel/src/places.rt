//! Boxes of places and of vectors, in metres at scale 2^-36.

use iv_core::Iv;

/// A box of each coordinate of a place or of a vector.
#[derive(Clone, Copy)]
pub struct VectorBox {
    pub x: Iv<36>,
    pub y: Iv<36>,
    pub z: Iv<36>,
}
