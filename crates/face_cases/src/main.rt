// Faces of bodies whose volume, area and centre a closed formula gives: each line has the number due
// and the number found, by their bit patterns, and whether they are within 1e-12 of each other, in
// parts of the number due, or of the body's size where that is 0.
#![tactic(auto)]

use arcs::Arc;
use checked::{PI, Refusal};
use cones::Cone;
use developments::Development;
use integrals::{Integrals, SurfaceIntegrals};
use pieces::Rolled;
use profile_arcs::ProfileArc;
use revolutions::closings;
use std::io;
use vectors::{Vec2, Vec3};
use walls::cut_walls;

const BOUND: f64 = 1e-12;

// Volumes are measured from here.
const HERE: Vec3 = Vec3 {
    x: 7.0,
    y: -3.0,
    z: 11.0,
};

// A sheet around the z axis, its neutral layer at 50 from it.
const SHEET: Development = Development {
    origin: Vec3::ZERO,
    axis: Vec3::ALONG_Z,
    start: Vec3::ALONG_X,
    neutral: 50.0,
};

fn is_near(due: f64, found: f64, size: f64) -> bool {
    float_bits::fabs(due - found) <= BOUND * size
}

// What is said of a number due, in a body of some size.
fn tell(rt: &impl Print, due: f64, found: f64, size: f64) -> io::Result<()> {
    let a = checked::bits(due);
    let b = checked::bits(found);
    print!(rt; ": due {a:016x}, found {b:016x}")?;
    if is_near(due, found, size) {
        println!(rt; ", near")
    } else {
        println!(rt; ", FAR")
    }
}

fn compare(rt: &impl Print, name: &str, due: f64, found: f64, size: f64) -> io::Result<()> {
    print!(rt; "  {name}")?;
    tell(rt, due, found, size)
}

fn compare3(rt: &impl Print, name: &str, due: Vec3, found: Vec3, size: f64) -> io::Result<()> {
    print!(rt; "  {name} x")?;
    tell(rt, due.x, found.x, size)?;
    print!(rt; "  {name} y")?;
    tell(rt, due.y, found.y, size)?;
    print!(rt; "  {name} z")?;
    tell(rt, due.z, found.z, size)
}

// The sums, or a NaN in them where there are none.
fn sums_of(answer: Result<Integrals, Refusal>) -> SurfaceIntegrals {
    match answer {
        Ok(s) => s.surface,
        Err(_) => SurfaceIntegrals {
            six_v: f64::NAN,
            area: f64::NAN,
            ..Integrals::NOTHING.surface
        },
    }
}

fn cone(radius: f64, slope: f64) -> Cone {
    Cone {
        origin: Vec3::ZERO,
        axis: Vec3::ALONG_Z,
        radius,
        slope,
        convex: true,
    }
}

// The arc at some height from one point to another, about the z axis or against it.
fn add_arc(
    s: Integrals,
    c: Cone,
    z: f64,
    up: f64,
    r: f64,
    from: f64,
    to: f64,
) -> Result<Integrals, Refusal> {
    let a = Arc {
        center: Vec3::new(0.0, 0.0, z),
        axis: Vec3::new(0.0, 0.0, up),
        radius: r,
    };
    revolutions::add_arc(
        s,
        c,
        a,
        Vec3::new(from, 0.0, z),
        Vec3::new(to, 0.0, z),
        HERE,
    )
}

// The side of a frustum from z = 0 up to h: its lower rim runs about the axis, its upper one against it.
fn side(r: f64, slope: f64, h: f64, to: f64) -> Result<Integrals, Refusal> {
    let c = cone(r, slope);
    let top = r + slope * h;
    let open = revolutions::open(c, HERE)?;
    let low = add_arc(open, c, 0.0, 1.0, r, r, to * r)?;
    let both = add_arc(low, c, h, -1.0, top, to * top, top)?;
    closings::closed(Integrals::NOTHING, c, both)
}

// A disk, or half of one, with its normal along the z axis or against it. The polygon of its ends is
// empty, so the slice is all there is.
fn disk(acc: Integrals, z: f64, up: f64, r: f64, from: f64, to: f64) -> Result<Integrals, Refusal> {
    let n = Vec3::new(0.0, 0.0, up);
    let a = Arc {
        center: Vec3::new(0.0, 0.0, z),
        axis: Vec3::ALONG_Z,
        radius: r,
    };
    segments::with_segment(
        acc,
        a,
        n,
        Vec3::new(from * r, 0.0, z),
        Vec3::new(to * r, 0.0, z),
        n,
        HERE,
    )
}

// A frustum's side and disks, or those of half of one.
fn round(r: f64, slope: f64, h: f64, to: f64) -> Result<Integrals, Refusal> {
    let s = side(r, slope, h, to)?;
    let s = disk(s, h, 1.0, r + slope * h, 1.0, to)?;
    disk(s, 0.0, -1.0, r, to, 1.0)
}

// The rectangle in the plane of the axis that closes half a cylinder; its normal is along -y.
fn with_rectangle(s: SurfaceIntegrals, r: f64, h: f64) -> SurfaceIntegrals {
    let area = 2.0 * r * h;
    let six_v = 2.0 * HERE.y * area;
    let k = 3.0 * six_v;
    SurfaceIntegrals {
        six_v: s.six_v + six_v,
        moment: Vec3::new(
            s.moment.x - HERE.x * k,
            s.moment.y - HERE.y * k,
            s.moment.z + (0.5 * h - HERE.z) * k,
        ),
        area_vector: Vec3 {
            y: s.area_vector.y - area,
            ..s.area_vector
        },
        ..s
    }
}

// A closed body: its volume, the area of its round side, its centre, and an area vector of 0.
fn body(
    rt: &impl Print,
    s: SurfaceIntegrals,
    volume: f64,
    area: f64,
    y: f64,
    z: f64,
) -> io::Result<()> {
    let k = 4.0 * s.six_v;
    let centre = Vec3::new(
        HERE.x + s.moment.x / k,
        HERE.y + s.moment.y / k,
        HERE.z + s.moment.z / k,
    );
    compare(rt, "volume", volume, s.six_v / 6.0, volume)?;
    compare(rt, "round side's area", area, s.area, area)?;
    compare3(rt, "centre", Vec3::new(0.0, y, z), centre, 100.0)?;
    compare3(rt, "area vector", Vec3::ZERO, s.area_vector, area)
}

fn cylinder(rt: &impl Print) -> io::Result<()> {
    println!(rt; "cylinder of radius 50 and height 100")?;
    let s = sums_of(round(50.0, 0.0, 100.0, 1.0));
    body(rt, s, PI * 250000.0, PI * 10000.0, 0.0, 50.0)
}

// The slant is the root of 80 times 80 and 20 times 20.
fn frustum(rt: &impl Print) -> io::Result<()> {
    println!(rt; "frustum of the radii 50 and 30 and the height 80")?;
    body(
        rt,
        sums_of(round(50.0, -0.25, 80.0, 1.0)),
        PI * 392000.0 / 3.0,
        PI * 80.0 * 82.46211251235322,
        0.0,
        1640.0 / 49.0,
    )
}

fn half_cylinder(rt: &impl Print) -> io::Result<()> {
    println!(rt; "half of a cylinder of radius 50 and height 100")?;
    let s = with_rectangle(sums_of(round(50.0, 0.0, 100.0, -1.0)), 50.0, 100.0);
    body(rt, s, PI * 125000.0, PI * 5000.0, 200.0 / (3.0 * PI), 50.0)
}

// An arc of the upper rim of a cylinder added, from one end along x to another.
fn add_rim(s: Integrals, from: f64, to: f64) -> Result<Integrals, Refusal> {
    add_arc(s, cone(50.0, 0.0), 100.0, -1.0, 50.0, from, to)
}

fn whole_rim() -> Result<Integrals, Refusal> {
    let open = revolutions::open(cone(50.0, 0.0), HERE)?;
    add_rim(open, 50.0, 50.0)
}

fn rim_in_halves() -> Result<Integrals, Refusal> {
    let open = revolutions::open(cone(50.0, 0.0), HERE)?;
    let first = add_rim(open, 50.0, -50.0)?;
    add_rim(first, -50.0, 50.0)
}

// One rim as one path, and as two halves added one after the other.
fn one_rim_in_parts(rt: &impl Print) -> io::Result<()> {
    println!(rt; "a rim at height 100 whole, and in two halves")?;
    let whole = sums_of(whole_rim());
    let both = sums_of(rim_in_halves());
    compare(
        rt,
        "six times the volume",
        whole.six_v,
        both.six_v,
        whole.six_v,
    )?;
    compare(rt, "area", whole.area, both.area, whole.area)?;
    compare(rt, "moment x", whole.moment.x, both.moment.x, 1e8)?;
    compare(rt, "moment z", whole.moment.z, both.moment.z, 1e8)
}

// A piece of the sheet without a trace.
fn piece(from: Vec2, to: Vec2, arc: Option<ProfileArc>) -> Rolled {
    Rolled {
        dev: SHEET,
        from,
        to,
        arc,
        trace: None,
    }
}

// A piece added to the cylinder's side, by the sheet that is rolled to it.
fn add_piece(s: Integrals, p: Rolled) -> Result<Integrals, Refusal> {
    revolutions::add_piece(s, cone(50.0, 0.0), p, HERE)
}

// A straight piece across the axis at height v.
fn add_straight(s: Integrals, from: f64, to: f64, v: f64) -> Result<Integrals, Refusal> {
    add_piece(s, piece(Vec2::new(from, v), Vec2::new(to, v), None))
}

// Four quarters, one after the other, from where u is `from`.
fn add_quarters(s: Integrals, from: f64, quarter: f64, v: f64) -> Result<Integrals, Refusal> {
    let mut sums = s;
    for k in 0..4_u32 {
        let u = from + k as f64 * quarter;
        sums = add_straight(sums, u, from + (k + 1) as f64 * quarter, v)?;
    }
    Ok(sums)
}

// The side of a cylinder by its two rims, each of them one path.
fn side_by_rims() -> Result<Integrals, Refusal> {
    let all = 100.0 * PI;
    let open = revolutions::open(cone(50.0, 0.0), HERE)?;
    let low = add_straight(open, 0.0, all, 0.0)?;
    add_straight(low, all, 0.0, 100.0)
}

fn side_by_quarters() -> Result<Integrals, Refusal> {
    let open = revolutions::open(cone(50.0, 0.0), HERE)?;
    let low = add_quarters(open, 0.0, 25.0 * PI, 0.0)?;
    add_quarters(low, 100.0 * PI, -25.0 * PI, 100.0)
}

fn compare_sums(rt: &impl Print, due: SurfaceIntegrals, found: SurfaceIntegrals) -> io::Result<()> {
    compare(rt, "six times the volume", due.six_v, found.six_v, 1e6)?;
    compare3(rt, "moment", due.moment, found.moment, 1e8)?;
    compare(rt, "area", due.area, found.area, 1e4)?;
    compare3(rt, "area vector", due.area_vector, found.area_vector, 1e4)
}

// The same side by rims, by their quarters, and by arcs in place of pieces.
fn one_face_in_pieces(rt: &impl Print) -> io::Result<()> {
    println!(rt; "the side of a cylinder, a rim a path, and piece by piece")?;
    let whole = sums_of(side_by_rims());
    compare_sums(rt, whole, sums_of(side_by_quarters()))?;
    println!(rt; "the same by arcs")?;
    compare_sums(rt, whole, sums_of(side(50.0, 0.0, 100.0, 1.0)))
}

// Half of a cylinder's side, with half a circle of radius 10 about `center` cut out of its upper rim.
fn notched(center: Vec2) -> Result<Integrals, Refusal> {
    let right = center.x + 10.0;
    let left = center.x - 10.0;
    let v = center.y;
    let notch = ProfileArc { center, ccw: false };
    let s = revolutions::open(cone(50.0, 0.0), HERE)?;
    let s = add_straight(s, 0.0, 50.0 * PI, 0.0)?;
    let s = add_straight(s, 50.0 * PI, right, v)?;
    let s = add_piece(
        s,
        piece(Vec2::new(right, v), Vec2::new(left, v), Some(notch)),
    )?;
    add_straight(s, left, 0.0, v)
}

// The notch is half a circle of radius 10 about (25 pi, 100), which the face's loop runs clockwise. With J the Bessel function of order 1
// at 10 / 50, the area vector of the part that it takes away is 500 pi J along y; n is the radial direction, so six times the volume is
// twice what the area times 50, less the area vector times the place of measuring, comes to.
fn half_cylinder_with_a_notch(rt: &impl Print) -> io::Result<()> {
    println!(rt; "half of a cylinder's side with a notch of radius 10 in its upper rim")?;
    let notch = 500.0 * PI * 0.099500832639236;
    let area = PI * 4950.0;
    let s = sums_of(notched(Vec2::new(25.0 * PI, 100.0)));
    let vector = 10000.0 - notch;
    compare(rt, "area", area, s.area, area)?;
    compare(rt, "area vector x", 0.0, s.area_vector.x, area)?;
    compare(rt, "area vector y", vector, s.area_vector.y, area)?;
    compare(
        rt,
        "six times the volume",
        2.0 * (50.0 * area - HERE.y * vector),
        s.six_v,
        1e6,
    )
}

// A cylinder's side with a round hole of radius 10 in the development, which the face's loop runs clockwise.
fn pierced() -> Result<Integrals, Refusal> {
    let c = cone(50.0, 0.0);
    let open = revolutions::open(c, HERE)?;
    let low = add_arc(open, c, 0.0, 1.0, 50.0, 50.0, 50.0)?;
    let both = add_arc(low, c, 100.0, -1.0, 50.0, 50.0, 50.0)?;
    let p = Vec2::new(20.0, 50.0);
    let hole = ProfileArc {
        center: Vec2::new(10.0, 50.0),
        ccw: false,
    };
    add_piece(both, piece(p, p, Some(hole)))
}

fn cylinder_with_a_hole(rt: &impl Print) -> io::Result<()> {
    println!(rt; "the same cylinder's side with a hole of radius 10 in its development")?;
    let s = sums_of(pierced());
    compare(rt, "area", PI * 9900.0, s.area, PI * 9900.0)
}

// The wall over a straight piece, from 40 to 60 from the axis.
fn wall(to: Vec2) -> SurfaceIntegrals {
    let p = piece(Vec2::new(0.0, 0.0), to, None);
    sums_of(cut_walls::with_cut_wall(Integrals::NOTHING, p, 40.0, 60.0, HERE))
}

// A cut along the axis has a rectangle for its wall, one across it a part of a ring.
fn straight_walls(rt: &impl Print) -> io::Result<()> {
    println!(rt; "walls of straight cuts, along the axis and a quarter turn about it")?;
    let s = wall(Vec2::new(0.0, 100.0));
    compare(rt, "area", 2000.0, s.area, 2000.0)?;
    compare(rt, "area vector y", -2000.0, s.area_vector.y, 2000.0)?;
    compare(rt, "six times the volume", -12000.0, s.six_v, 12000.0)?;
    let s = wall(Vec2::new(50.0 * (0.5 * PI), 0.0));
    compare(rt, "area", PI * 500.0, s.area, 2000.0)?;
    compare(rt, "area vector z", PI * 500.0, s.area_vector.z, 2000.0)?;
    compare(rt, "six times the volume", PI * -11000.0, s.six_v, 40000.0)
}

fn main(rt: HostRuntime) -> io::Result<()> {
    cylinder(&rt)?;
    frustum(&rt)?;
    half_cylinder(&rt)?;
    one_rim_in_parts(&rt)?;
    cylinder_with_a_hole(&rt)?;
    one_face_in_pieces(&rt)?;
    half_cylinder_with_a_notch(&rt)?;
    straight_walls(&rt)
}
