// Constants of the code, given back beside the papers' figures that they equal: a program that wants
// them takes them from their own crates.
#![tactic(auto)]

ghost use Rattle.std.specs.Prelude.{◌≡◌};
ghost use Rattle.vectors.specs.Vectors.{origin, along_x, along_y, along_z};
ghost use Rattle.chord_counts.specs.Counts as Counts;
ghost use Rattle.curves.specs.Drawn as Drawn;
ghost use Rattle.constants.specs.Constants as Constants;

use checked::{FRAC_PI_4, PI, Refusal, TAU};
use chord_counts::counts;
use curves::drawn::CURVE_ROW;
use integrals::{NODES, WEIGHTS};
use vectors::Vec3;

// The refusals in the order of their numbers.
pub fn refusals() -> [u8; 11]
    ensures { result ≡ Constants.refusals }
{
    [
        Refusal::OutOfRange.number(),
        Refusal::NeutralNotPositive.number(),
        Refusal::ArcAndTrace.number(),
        Refusal::BadBoxOrSums.number(),
        Refusal::BadTolerance.number(),
        Refusal::RowTooShort.number(),
        Refusal::PieceOnCone.number(),
        Refusal::AngleTooLarge.number(),
        Refusal::NotFinite.number(),
        Refusal::CountTooLarge.number(),
        Refusal::MalformedFile.number(),
    ]
}

// π, 2π and π/4.
pub fn angles() -> [f64; 3]
    ensures { result ≡ Constants.angles }
{
    [PI, TAU, FRAC_PI_4]
}

// The nodes of the rule of Gauss and Legendre.
pub fn nodes() -> [f64; 4]
    ensures { result ≡ Constants.nodes }
{
    NODES
}

pub fn weights() -> [f64; 4]
    ensures { result ≡ Constants.weights }
{
    WEIGHTS
}

pub fn zero() -> Vec3
    ensures { result ≡ origin }
{
    Vec3::ZERO
}

// The directions of the coordinates.
pub fn along_x() -> Vec3
    ensures { result ≡ along_x }
{
    Vec3::ALONG_X
}

pub fn along_y() -> Vec3
    ensures { result ≡ along_y }
{
    Vec3::ALONG_Y
}

pub fn along_z() -> Vec3
    ensures { result ≡ along_z }
{
    Vec3::ALONG_Z
}

// The most chords or pieces.
pub fn most() -> u16
    ensures { result ≡ Counts.MOST }
{
    counts::MOST
}

// The longest row that a curve can ask for.
pub fn curve_row() -> usize
    ensures { result ≡ Drawn.CURVE_ROW }
{
    CURVE_ROW
}
