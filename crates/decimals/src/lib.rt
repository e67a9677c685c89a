// Numbers as the shops read them: whole thousandths, and decimal digits.
#![tactic(auto)]

ghost use Rattle.std.specs.Prelude.{◌≡◌, Bool, ◌/◌, ◌%◌, ◌^◌, ◌<◌, length, drop};
ghost use Rattle.std.specs.Float.{binary64};
ghost use Rattle.std.specs.Float.Ieee.{of_fields};
ghost use Rattle.checked.specs.Told.{told};
ghost use Rattle.decimals.specs.Thousandths as Thousandths;
ghost use Rattle.decimals.specs.Digits as Digits;

use checked::{Refusal, require};

// The most thousandths that are printed, in magnitude.
const MOST: u64 = 1_000_000_000;

// The whole thousandths of the magnitude whose bit pattern is b, nearest, a half going up. The significand m has 53 binary digits and
// stands for m / 2^(1075 - field), so that the thousandths, doubled and cut, are 1000 * m >> (1074 - field). Below the field 1012 nothing
// is left of it; from 1043 on, where 2^20 begins, there are too many, and so there are for the infinities and the NaNs.
fn size_of(b: u64) -> u64
    ensures { (s : Bool) → Thousandths.counted s result ≡ Thousandths.thousandths (of_fields binary64 s (b / 2 ^ 52) (b % 2 ^ 52)) }
{
    let field = b / 0x10_0000_0000_0000;
    if field < 1012 {
        0
    } else if field < 1043 {
        let m = b % 0x10_0000_0000_0000 + 0x10_0000_0000_0000;
        let doubled = (1000 * m) >> (1074 - field);
        (doubled + 1) / 2
    } else {
        MOST + 1
    }
}

// The whole thousandths nearest to x, worked out from its exact value; a half goes away from zero.
pub fn thousandths(x: f64) -> Result<i64, Refusal>
    ensures { told result ≡ Thousandths.thousandths x }
{
    let b = checked::bits(x);
    let size = size_of(b % 0x8000_0000_0000_0000);
    require(size <= MOST, Refusal::CountTooLarge)?;
    if b >= 0x8000_0000_0000_0000 {
        Ok(-(size as i64))
    } else {
        Ok(size as i64)
    }
}

// Puts the decimal digits of n at the end of out, and answers where they begin.
pub fn digits(n: u64, out: &mut [u8; 20]) -> usize
    ensures text { drop result out.new ≡ Digits.digits n }
    ensures start { result < 20 }
    ensures room { length out.new ≡ 20 }
{
    spell(n, out)
}

// The same at a slice: the last digit, and then those of what is left without it.
fn spell(n: u64, out: &mut [u8]) -> usize
    requires { length out.old ≡ 20 }
    ensures text { drop result out.new ≡ Digits.digits n }
    ensures start { result < 20 }
    ensures room { length out.new ≡ 20 }
{
    let mut i = 19;
    let mut rest = n / 10;
    out[19] = 48 + (n % 10) as u8;
    while rest > 0 {
        i -= 1;
        out[i] = 48 + (rest % 10) as u8;
        rest /= 10;
    }
    i
}
