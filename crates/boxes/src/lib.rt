// Boxes of edges, and their widening by points.
#![tactic(auto)]

ghost use Rattle.std.specs.Prelude.{◌≡◌};
ghost use Rattle.boxes.specs.Boxes as Boxes;

use order::{greatest, least};
use vectors::Vec3;

// A box by its low and its high corner. Its numbers may be infinite.
#[derive(Clone, Copy)]
pub struct Bounds {
    pub low: Vec3,
    pub high: Vec3,
}

// The lesser of two in each coordinate.
fn lesser(a: Vec3, p: Vec3) -> Vec3
    ensures { result ≡ Boxes.lesser a p }
{
    Vec3 {
        x: least(a.x, p.x),
        y: least(a.y, p.y),
        z: least(a.z, p.z),
    }
}

// The greater of two in each coordinate.
fn greater(a: Vec3, p: Vec3) -> Vec3
    ensures { result ≡ Boxes.greater a p }
{
    Vec3 {
        x: greatest(a.x, p.x),
        y: greatest(a.y, p.y),
        z: greatest(a.z, p.z),
    }
}

// No NaN among the three.
fn are_numbers(v: Vec3) -> bool
    ensures { result ≡ Boxes.numbers v }
{
    (v.x == v.x) & ((v.y == v.y) & (v.z == v.z))
}

impl Bounds {
    // The box of no point; a constant cannot hold an infinity.
    pub fn empty() -> Self
        ensures { result ≡ Boxes.empty }
    {
        let infinity = 1.0 / 0.0;
        Self {
            low: Vec3 {
                x: infinity,
                y: infinity,
                z: infinity,
            },
            high: Vec3 {
                x: -infinity,
                y: -infinity,
                z: -infinity,
            },
        }
    }

    // Free of NaN.
    pub fn is_free(self) -> bool
        ensures { result ≡ Boxes.free self }
    {
        are_numbers(self.low) & are_numbers(self.high)
    }

    // The box with one more point in it.
    pub fn widened(self, p: Vec3) -> Self
        ensures { result ≡ Boxes.widened self p }
    {
        Self {
            low: lesser(self.low, p),
            high: greater(self.high, p),
        }
    }
}
