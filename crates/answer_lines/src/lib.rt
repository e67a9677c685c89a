// A line of the list of the Rust's answers: two decimal digits for the operation, two for the refusal, then bit patterns of 16
// hexadecimal digits, each after a space.
#![tactic(auto)]

ghost use Rattle.std.specs.Prelude.{◌≡◌, ◌+◌, ◌≤◌, length};
ghost use Rattle.answer_lines.specs.Lines as Lines;

fn digit(b: u8) -> u64
    ensures { result ≡ Lines.digit b }
{
    if b < 97 {
        (b % 16) as u64
    } else {
        ((b - 87) % 16) as u64
    }
}

// The number that 16 hexadecimal digits spell.
fn hex(line: &[u8], at: usize) -> u64
    requires { at + 16 ≤ length line.now }
    ensures { result ≡ Lines.spelt 16 line.now at 16 }
{
    let mut n = 0;
    for i in 0..16 {
        n = n * 16 + digit(line[at + i]);
    }
    n
}

// The number that two decimal digits spell.
fn pair(line: &[u8], at: usize) -> u64
    requires { at + 2 ≤ length line.now }
    ensures { result ≡ Lines.spelt 10 line.now at 2 }
{
    digit(line[at]) * 10 + digit(line[at + 1])
}

// The number of the operation; 0 where the line is too short.
pub fn operation(line: &[u8]) -> u64
    ensures { result ≡ Lines.operation line.now }
{
    if line.len() >= 5 { pair(line, 0) } else { 0 }
}

// The number of the refusal that is due; 0 is none.
pub fn refusal(line: &[u8]) -> u64
    ensures { result ≡ Lines.refusal line.now }
{
    if line.len() >= 5 { pair(line, 3) } else { 0 }
}

// How many patterns the line has; 0 where its length is not that of a whole number of them.
pub fn count(line: &[u8]) -> usize
    ensures { result ≡ Lines.count line.now }
{
    if line.len() % 17 == 5 {
        line.len() / 17
    } else {
        0
    }
}

// Pattern k, counted from 0; 0 past the last one.
pub fn pattern(line: &[u8], k: usize) -> u64
    ensures { result ≡ Lines.pattern line.now k }
{
    if k < count(line) {
        hex(line, 6 + 17 * k)
    } else {
        0
    }
}
