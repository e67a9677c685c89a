// The whole number nearest to a root, by arithmetic on 64 bits: `rounding` takes the digits of a
// square root from it.
ghost use Rattle.std.specs.Prelude.{ℕ, ◌+◌, ◌*◌, ◌^◌, ◌≤◌, ◌<◌};
ghost use Rattle.rounding.specs.NearRoot.{NearRoot};

// About the root of n, by a polynomial and two of Newton's steps. Only the time that `whole_root`
// takes depends on how near it is.
fn guess(n: u64) -> u64
    requires { n < 2 ^ 54 }
    ensures { result < 2 ^ 27 }
{
    let v = n >> 38;
    let a = 68945 - ((20730 * v) >> 16);
    let g = 16992 + ((a * v) >> 16);
    let h = (g * 2048 + (n >> 11) / g) >> 1;
    let i = (h + n / h) >> 1;
    if i < 134217728 { i } else { 134217727 }
}

// The largest s with s * s <= n.
fn whole_root(n: u64) -> u64
    requires { n < 2 ^ 54 }
    ensures { (result * result ≤ n) × (n ≤ result * result + 2 * result) }
{
    let mut s = guess(n);
    while n < s * s {
        s -= 1;
    }
    while 2 * s < n - s * s {
        s += 1;
    }
    s
}

// The whole number nearest to the root of n * 2^52, for an n from 2^52 up and below 2^54. With s
// the whole part of n's root, n = s * s + r. The next digits are q = r * 2^26 / (2 * s), with u
// left over: n * 2^52 = t * t + u * 2^26 - q * q for t = s * 2^26 + q.
pub fn nearest_root(n: u64) -> u64
    requires { (2 ^ 52 ≤ n) × (n < 2 ^ 54) }
    ensures { NearRoot (n * 2 ^ 52) result }
{
    let s = whole_root(n);
    let r = (n - s * s) * 67108864;
    let q = r / (2 * s);
    let c = (r % (2 * s)) * 67108864;
    let t = s * 67108864 + q;
    let d = q * q;
    if d + t < c {
        t + 1
    } else if d < c + t {
        t
    } else {
        t - 1
    }
}
