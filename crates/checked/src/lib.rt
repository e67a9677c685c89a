// Refusals, the tests that lead to them, and helpers on bit patterns that have a result for every f64.
#![tactic(auto)]

ghost use Rattle.std.specs.Prelude.{◌≡◌};
ghost use Rattle.checked.specs.Checked.{is_finite, within, finite, answered};
ghost use Rattle.checked.specs.Told.{number, told, failed};
ghost use Rattle.checked.specs.Refusals.{OUT_OF_RANGE};
ghost use Rattle.checked.specs.Patterns as Patterns;
ghost use Rattle.checked.specs.Tests.{fails, ◌or◌, neutral_test, chord_test};

use std::error::Error;
use std::fmt;

pub mod loops;

// Why an entry gives no result. C and the papers know each by its number.
#[derive(Clone, Copy, Debug, PartialEq, Eq, Hash)]
pub enum Refusal {
    // ---- by the drawing
    // A number handed in is not finite, or above 1,048,576 in magnitude.
    OutOfRange = 1,
    // A neutral radius is not greater than 0.
    NeutralNotPositive = 2,
    // A piece has both an arc and a trace.
    ArcAndTrace = 3,

    // ---- by the calling program
    // A box holds a NaN, or sums hold a NaN or an infinity.
    BadBoxOrSums = 4,
    // A chord is below 0, or a deviation is not above 0.
    BadTolerance = 5,
    // A row is shorter than three times the points due.
    RowTooShort = 6,
    // A development's piece is among the paths of a cone whose slope is not 0.
    PieceOnCone = 7,

    // ---- by the arithmetic
    // A finite angle above 1,048,576 in magnitude is due for a sine or cosine.
    AngleTooLarge = 8,
    // A number that the result depends on is not finite.
    NotFinite = 9,
    // A count, or a corner to print, is above its limit.
    CountTooLarge = 10,

    // ---- by the edge file
    // The bytes are not those of an edge file.
    MalformedFile = 11,
}

impl Refusal {
    pub fn number(self) -> u8
        ensures { result ≡ number self }
    {
        self as u8
    }
}

impl fmt::Display for Refusal {
    fn fmt<W: fmt::Write>(&self, f: &mut fmt::Formatter<W>) -> fmt::Result {
        f.write_str(match self {
            Refusal::OutOfRange => "a number is not finite, or above 1048576 in magnitude",
            Refusal::NeutralNotPositive => "a neutral radius is not above 0",
            Refusal::ArcAndTrace => "a piece has both an arc and a trace",
            Refusal::BadBoxOrSums => "a box or sums hold a NaN, or sums an infinity",
            Refusal::BadTolerance => "a chord is below 0, or a deviation not above 0",
            Refusal::RowTooShort => "a row is too short for its points",
            Refusal::PieceOnCone => "a piece of a development lies on a sloping cone",
            Refusal::AngleTooLarge => "an angle is above 1048576 in magnitude",
            Refusal::NotFinite => "a number on the way to the result is not finite",
            Refusal::CountTooLarge => "a count or a corner is above its limit",
            Refusal::MalformedFile => "not an edge file",
        })
    }
}

impl Error for Refusal {}

// π, 2π and π/4, rounded.
pub const PI: f64 = 3.141592653589793;

pub const TAU: f64 = 6.283185307179586;

pub const FRAC_PI_4: f64 = 0.7853981633974483;

// The largest magnitude of a number handed in.
const LIMIT: f64 = 1048576.0;

pub fn is_finite(x: f64) -> bool
    ensures { result ≡ is_finite x }
{
    let infinity = 1.0 / 0.0;
    (-infinity < x) & (x < infinity)
}

// Finite, and at most 1,048,576 in magnitude.
pub fn is_within(x: f64) -> bool
    ensures { result ≡ within x }
{
    (-LIMIT <= x) & (x <= LIMIT)
}

// The refusal where a test of what is handed in does not hold.
pub fn require(holds: bool, refusal: Refusal) -> Result<(), Refusal>
    ensures { failed result ≡ fails (number refusal) holds }
{
    if holds { Ok(()) } else { Err(refusal) }
}

// A neutral radius is above 0.
pub fn require_neutral(n: f64) -> Result<(), Refusal>
    ensures { failed result ≡ neutral_test n }
{
    require(0.0 < n, Refusal::NeutralNotPositive)
}

// A chord is not below 0.
pub fn require_chord(chord: f64) -> Result<(), Refusal>
    ensures { failed result ≡ chord_test chord }
{
    require(!(chord < 0.0), Refusal::BadTolerance)
}

// What a drawing is handed: numbers within the limit, and a chord that is not below 0. The numbers'
// refusal is the earlier one.
pub fn require_drawing(within: bool, chord: f64) -> Result<(), Refusal>
    ensures { failed result ≡ (fails OUT_OF_RANGE within or chord_test chord) }
{
    let numbers = require(within, Refusal::OutOfRange);
    let tolerance = require_chord(chord);
    numbers.and(tolerance)
}

// A number that the result depends on, or its refusal.
pub fn finite(x: f64) -> Result<f64, Refusal>
    ensures { told result ≡ answered (finite x) }
{
    if is_finite(x) {
        Ok(x)
    } else {
        Err(Refusal::NotFinite)
    }
}

// The bit pattern of x; every NaN has the same one.
pub fn bits(x: f64) -> u64
    ensures { result ≡ Patterns.bits x }
{
    if x != x {
        0x7ff8_0000_0000_0000
    } else {
        f64::to_bits(x)
    }
}

// The number of a bit pattern.
pub fn of_bits(b: u64) -> f64
    ensures { result ≡ Patterns.of_pattern b }
{
    if b % 0x8000_0000_0000_0000 > 0x7ff0_0000_0000_0000 {
        0.0 / 0.0
    } else {
        f64::from_bits(b)
    }
}

// The high word of the pattern, without the sign.
pub fn high_word(x: f64) -> u64
    ensures { result ≡ Patterns.high_word x }
{
    bits(x) / 0x1_0000_0000 % 0x8000_0000
}

// The number with the low word of its pattern cleared.
pub fn upper(x: f64) -> f64
    ensures { result ≡ Patterns.upper x }
{
    if x != x {
        x
    } else {
        let b: u64 = f64::to_bits(x);
        f64::from_bits(b - b % 0x1_0000_0000)
    }
}
