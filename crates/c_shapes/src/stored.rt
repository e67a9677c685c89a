// Answers stored where they are due: a record as numbers, or nothing where it is refused.
#![tactic(auto, unfolding(c_arrays::specs::Records::over, c_arrays::specs::Records::stored, c_arrays::specs::TraceRecords::some_due))]

ghost use Rattle.std.specs.Prelude.{◌≡◌, ℕ, List};
ghost use Rattle.checked.specs.Told.{told};
ghost use Rattle.checked.specs.Answers.{number_of};
ghost use Rattle.c_arrays.specs.Records.{over, stored, after};
ghost use Rattle.c_arrays.specs.TraceRecords.{some_due};
ghost use Rattle.c_arrays.specs.ArcRecords.{of_drawn};

use c_arrays::NONE;
use checked::Refusal;

// A record that an array of N numbers holds. Of one whose tags leave some of them unused, these stay as they were.
pub trait Stored<E, const N: usize> {
    // The array with the record over what it held.
    ghost put: { List E → Self → List E };

    fn put(self, out: &mut [E; N])
        ensures { out.new ≡ put out.old self };
}

// A record whose tags stand beside its numbers.
pub trait Tagged {
    ghost tags: { Self → List ℕ };

    fn put_tags(self, out: &mut [u32; 2])
        ensures { out.new ≡ over out.old 0 (tags self) };
}

// The refusal's number, 0 where there is none: then the record is in the array.
#[inline(always)]
pub fn store<T: Stored<E, N>, E, const N: usize>(
    answer: Result<T, Refusal>,
    out: &mut [E; N],
) -> u32
    ensures number { result ≡ number_of (told answer) }
    ensures out { out.new ≡ stored T.put out.old (told answer) }
{
    match answer {
        Ok(value) => {
            value.put(out);
            0
        }
        Err(refusal) => refusal.number() as u32,
    }
}

// The same where there may be no record to give, which has a number of its own.
#[inline(always)]
pub fn store_some<T: Stored<E, N>, E, const N: usize>(
    answer: Result<Option<T>, Refusal>,
    out: &mut [E; N],
) -> u32
    ensures number { result ≡ number_of (some_due (told answer)) }
    ensures out { out.new ≡ stored T.put out.old (some_due (told answer)) }
{
    match answer {
        Ok(Some(record)) => {
            record.put(out);
            0
        }
        Ok(None) => NONE,
        Err(refusal) => refusal.number() as u32,
    }
}

// The same with the record's tags.
#[inline(always)]
pub fn store_tagged<T: Stored<E, N> + Tagged + Copy, E, const N: usize>(
    answer: Result<T, Refusal>,
    out: &mut [E; N],
    tags: &mut [u32; 2],
) -> u32
    ensures number { result ≡ number_of (told answer) }
    ensures out { out.new ≡ stored T.put out.old (told answer) }
    ensures tags { tags.new ≡ after T.tags tags.old (told answer) }
{
    match answer {
        Ok(record) => {
            record.put(out);
            record.put_tags(tags);
            0
        }
        Err(refusal) => refusal.number() as u32,
    }
}

// How many points were drawn, as how many numbers these are.
#[inline(always)]
pub fn store_drawn(answer: Result<u16, Refusal>, written: &mut [u64; 1]) -> u32
    ensures number { result ≡ number_of (told answer) }
    ensures written { written.new ≡ after of_drawn written.old (told answer) }
{
    match answer {
        Ok(points) => {
            written[0] = 3 * (points as u64);
            0
        }
        Err(refusal) => refusal.number() as u32,
    }
}
