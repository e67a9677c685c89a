// The formulas of motions on numbers of any size.
#![tactic(auto, unfolding(crate::specs::Motions::diagonal_c, crate::specs::Motions::more_c, crate::specs::Motions::less_c, crate::specs::Motions::rows_c, crate::specs::Motions::frame_of, crate::specs::Motions::apply_vector_c, crate::specs::Motions::apply_c))]

ghost use Rattle.std.specs.Prelude.{◌≡◌};
ghost use Rattle.checked.specs.Told.{told};
ghost use Rattle.checked.specs.Checked.{answered, settled};
ghost use Rattle.motions.specs.Motions.{diagonal_c, more_c, less_c, rows_c, rows_nine, rotation_c, apply_vector_c, apply_c, frame_of};

use crate::{Rigid, Rows};
use checked::{Refusal, finite};
use directions::formula::over_length;
use libm::sincos::sincos;
use vectors::Vec3;
use vectors::formula::{dot, finite3, plus};

fn diagonal(t: f64, a: f64, c: f64) -> f64
    ensures { result ≡ (diagonal_c t a c).value }
{
    t * a * a + c
}

fn more(t: f64, a: f64, b: f64, s: f64, d: f64) -> f64
    ensures { result ≡ (more_c t a b s d).value }
{
    t * a * b + s * d
}

fn less(t: f64, a: f64, b: f64, s: f64, d: f64) -> f64
    ensures { result ≡ (less_c t a b s d).value }
{
    t * a * b - s * d
}

// The rotation about k by an angle of sine s and cosine c, with t = 1 - c.
fn rows(k: Vec3, s: f64, c: f64, t: f64) -> Rows
    ensures { result ≡ (rows_c k s c t).value }
{
    Rows {
        x: Vec3 {
            x: diagonal(t, k.x, c),
            y: less(t, k.x, k.y, s, k.z),
            z: more(t, k.x, k.z, s, k.y),
        },
        y: Vec3 {
            x: more(t, k.x, k.y, s, k.z),
            y: diagonal(t, k.y, c),
            z: less(t, k.y, k.z, s, k.x),
        },
        z: Vec3 {
            x: less(t, k.x, k.z, s, k.y),
            y: more(t, k.y, k.z, s, k.x),
            z: diagonal(t, k.z, c),
        },
    }
}

// The motion taking coordinates in a frame to those of the world.
pub fn frame(origin: Vec3, x: Vec3, y: Vec3, z: Vec3) -> Rigid
    ensures { result ≡ frame_of origin x y z }
{
    Rigid {
        rot: Rows {
            x: Vec3 {
                x: x.x,
                y: y.x,
                z: z.x,
            },
            y: Vec3 {
                x: x.y,
                y: y.y,
                z: z.y,
            },
            z: Vec3 {
                x: x.z,
                y: y.z,
                z: z.z,
            },
        },
        shift: origin,
    }
}

pub fn apply_vector(m: Rigid, v: Vec3) -> Vec3
    ensures { result ≡ (apply_vector_c m v).value }
{
    Vec3 {
        x: dot(m.rot.x, v),
        y: dot(m.rot.y, v),
        z: dot(m.rot.z, v),
    }
}

pub fn apply(m: Rigid, p: Vec3) -> Vec3
    ensures { result ≡ (apply_c m p).value }
{
    plus(apply_vector(m, p), m.shift)
}

// Rows that the result depends on, or the refusal where one of their numbers is not finite.
fn finite_rows(m: Rows) -> Result<Rows, Refusal>
    ensures { told result ≡ settled (rows_nine m) m }
{
    finite3(m.x)?;
    finite3(m.y)?;
    finite3(m.z)?;
    Ok(m)
}

pub fn rotation(axis: Vec3, angle: f64) -> Result<Rigid, Refusal>
    ensures { told result ≡ answered (rotation_c axis angle) }
{
    let k = over_length(axis)?;
    let a = sincos(angle)?;
    let t = finite(1.0 - a.cos)?;
    let rot = finite_rows(rows(k, a.sin, a.cos, t))?;
    Ok(Rigid {
        rot,
        shift: Vec3::ZERO,
    })
}
