// Which arcs are full circles. First an arc from (3, 4, 0) about the z axis, to ends some bits of y
// ahead of it and behind it: their sweeps, by bit pattern; and from (5, 0, 0), where the least
// number ahead is lost since its arctangent rounds to 0. Then a million arcs between drawn
// points, half of them a few bits apart: each is a full circle exactly where its arctangent lies in
// [-2^-51, 0], as crates/arc_theorems proves.
#![tactic(auto)]

use arcs::Arc;
use checked::TAU;
use libm::atan2;
use std::io;
use vectors::Vec3;

// 2^-51.
const LOST: f64 = 4.440892098500626e-16;

const CALLS: u32 = 1_000_000;

const ABOUT_Z: Arc = Arc {
    center: Vec3::ZERO,
    axis: Vec3::ALONG_Z,
    radius: 5.0,
};

// The sweep from a point to another, or 0, which is no sweep, where it is refused.
fn sweep_of(from: Vec3, to: Vec3) -> f64 {
    ABOUT_Z.sweep(from, to).unwrap_or(0.0)
}

// The sweep from a point to the one beside it with another y, given by its pattern.
fn show(rt: &impl Print, name: &str, from: Vec3, y: u64) -> io::Result<()> {
    let to = Vec3 {
        y: checked::of_bits(y),
        ..from
    };
    let sweep = sweep_of(from, to);
    let bits = checked::bits(sweep);
    print!(rt; "{name}{bits:016x}")?;
    if sweep == TAU {
        println!(rt; ", a full circle")
    } else {
        println!(rt; "")
    }
}

// The sweep is above 0 and at most 2π, and 2π exactly where the arctangent is lost beside it.
fn is_as_proved(from: Vec3, to: Vec3) -> bool {
    let sweep = sweep_of(from, to);
    let y = from.x * to.y - from.y * to.x;
    let x = from.x * to.x + from.y * to.y;
    let angle = atan2::atan2(y, x);
    let is_lost = (-LOST <= angle) & (angle <= 0.0);
    (0.0 < sweep) & (sweep <= TAU) & ((sweep == TAU) == is_lost)
}

// The next of a row of numbers below 2^31 that look drawn at random; their high bits serve, since
// the low ones repeat.
fn drawn(seed: u64) -> u64 {
    (seed % 0x8000_0000 * 1103515245 + 12345) % 0x8000_0000
}

// A whole number from 1 to 2000.
fn length(seed: u64) -> f64 {
    let n = (seed / 0x1_0000 % 2000) as u32;
    (n as f64) + 1.0
}

// The number up to 16 bits below or above x.
fn beside(x: f64, seed: u64) -> f64 {
    let bits = checked::bits(x).wrapping_add(seed / 0x1_0000 % 33);
    checked::of_bits(bits.wrapping_sub(16))
}

// An arc to another point, or to one beside its start.
fn is_drawn_as_proved(seed: u64) -> bool {
    let a = drawn(seed);
    let b = drawn(a);
    let c = drawn(b);
    let from = Vec3::new(length(a), length(b), 0.0);
    let to = if seed % 2 == 0 {
        Vec3::new(-length(c), length(drawn(c)), 0.0)
    } else {
        Vec3 {
            y: beside(from.y, c),
            ..from
        }
    };
    is_as_proved(from, to)
}

fn count(calls: u32) -> u32 {
    let mut seed = 1;
    let mut good = 0u32;
    for _ in 0..calls {
        if is_drawn_as_proved(seed) {
            good = good.saturating_add(1);
        }
        seed = drawn(seed);
    }
    good
}

fn main(rt: HostRuntime) -> io::Result<()> {
    let p = Vec3::new(3.0, 4.0, 0.0);
    show(&rt, "9 bits behind: ", p, 0x400f_ffff_ffff_fff7)?;
    show(&rt, "8 bits behind: ", p, 0x400f_ffff_ffff_fff8)?;
    show(&rt, "1 bit behind: ", p, 0x400f_ffff_ffff_ffff)?;
    show(&rt, "the same: ", p, 0x4010_0000_0000_0000)?;
    show(&rt, "1 bit ahead: ", p, 0x4010_0000_0000_0001)?;
    let q = Vec3::new(5.0, 0.0, 0.0);
    show(&rt, "1 bit ahead of 0: ", q, 1)?;
    show(&rt, "3 bits ahead of 0: ", q, 3)?;
    let good = count(CALLS);
    println!(rt; "drawn {CALLS}, as proved {good}")
}
