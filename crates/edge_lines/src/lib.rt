// The line that the program prints, put together from its end: each part is put before what stands already.
#![tactic(auto, unfolding(crate::specs::Lines::bytes, crate::specs::Lines::spaced, crate::specs::Lines::corner, crate::specs::Lines::empty_line, crate::specs::Lines::refused_line, crate::specs::Lines::box_line))]

ghost use Rattle.std.specs.Prelude.{◌≡◌, ℕ, ◌+◌, ◌≤◌, List, ◌++◌, length, drop, IfOk};
ghost use Rattle.checked.specs.Checked.{due};
ghost use Rattle.checked.specs.Told.{number, told};
ghost use Rattle.decimals.specs.Digits.{digits, numeral};
ghost use Rattle.decimals.specs.Thousandths.{thousandths};
ghost use Rattle.edge_lines.specs.declared.TheConstants.{ROOM};
ghost use Rattle.edge_lines.specs.Lines.{bytes, spaced, corner, stands, empty_line, refused_line, box_line};

use checked::Refusal;
use std::marker::Model;
use vectors::Vec3;

// Room for the longest line.
pub const ROOM: usize = 160;

// A line, or as much of it as stands: its text is at the end of the buffer.
#[derive(Drop)]
pub struct Line {
    buffer: [u8; ROOM],
    from: usize,
}

// Clauses see its text.
impl Model for Line {
    ghost Value = { List ℕ };

    ghost view = { λ l. drop l.from l.buffer };

    ghost invariant = { λ l. l.from ≤ ROOM };
}

impl Line {
    // The end of a line, and nothing before it.
    fn end() -> Line
        ensures most { length result ≤ 1 }
        ensures line { result ≡ bytes "\n" }
    {
        Line {
            buffer: [b'\n'; ROOM],
            from: ROOM - 1,
        }
    }

    // What stands.
    pub fn text(&self) -> &[u8]
        ensures { result.now ≡ self.now }
    {
        &self.buffer[self.from..]
    }

    // Puts a text before what stands.
    fn put(&mut self, text: &[u8])
        requires { length text.now + length self.old ≤ ROOM }
        ensures { self.new ≡ text.now ++ self.old }
    {
        let end = self.from;
        self.from -= text.len();
        self.buffer[self.from..end].copy_from_slice(text);
    }

    // The same of the digits of a number.
    fn put_digits(&mut self, n: u64)
        requires { 20 + length self.old ≤ ROOM }
        ensures most { length self.new ≤ 20 + length self.old }
        ensures line { self.new ≡ digits n ++ self.old }
    {
        let mut text = [0u8; 20];
        let from = decimals::digits(n, &mut text);
        self.put(&text[from..]);
    }

    // The same of a number with its sign, after a space.
    fn put_whole(&mut self, n: i64)
        requires { 22 + length self.old ≤ ROOM }
        ensures most { length self.new ≤ 22 + length self.old }
        ensures line { self.new ≡ bytes " " ++ numeral n ++ self.old }
    {
        self.put_digits(n.unsigned_abs());
        let is_negative = n < 0;
        if is_negative {
            self.put(b" -");
        } else {
            self.put(b" ");
        }
    }

    // The same of a number in thousandths. One that is too large ends the line: all are refused alike, so the first one met, from the end on, is the one that counts.
    fn put_coordinate(&mut self, x: f64) -> Result<(), Refusal>
        requires { 22 + length self.old ≤ ROOM }
        ensures most { length self.new ≤ 22 + length self.old }
        ensures line { stands result self.new ≡ spaced (thousandths x) (due self.old) }
    {
        self.put_whole(decimals::thousandths(x)?);
        Ok(())
    }

    // The same of a corner's three numbers.
    fn put_corner(&mut self, p: Vec3) -> Result<(), Refusal>
        requires { 66 + length self.old ≤ ROOM }
        ensures most { length self.new ≤ 66 + length self.old }
        ensures line { stands result self.new ≡ corner p (due self.old) }
    {
        self.put_coordinate(p.z)?;
        self.put_coordinate(p.y)?;
        self.put_coordinate(p.x)
    }
}

// What stands after the word `box`.
fn corners(low: Vec3, high: Vec3) -> Result<Line, Refusal>
    ensures most { IfOk result (λ text. 3 + length text ≤ ROOM) }
    ensures line { told result ≡ corner low (corner high (due (bytes "\n"))) }
{
    let mut line = Line::end();
    line.put_corner(high)?;
    line.put_corner(low)?;
    Ok(line)
}

// The line of a file without an edge.
pub fn empty_line() -> Line
    ensures { result ≡ empty_line }
{
    let mut line = Line::end();
    line.put(b"empty");
    line
}

// The line of a refusal at record k.
pub fn refused_line(refusal: Refusal, k: u64) -> Line
    ensures { result ≡ refused_line (number refusal) k }
{
    let mut line = Line::end();
    line.put_digits(k);
    line.put(b" record ");
    line.put_digits(refusal.number() as u64);
    line.put(b"refused ");
    line
}

// The line of a box whose file ends with record k.
pub fn box_line(low: Vec3, high: Vec3, k: u64) -> Line
    ensures { result ≡ box_line low high k }
{
    match corners(low, high) {
        Ok(mut line) => {
            line.put(b"box");
            line
        }
        Err(refusal) => refused_line(refusal, k),
    }
}
