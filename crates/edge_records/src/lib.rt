// The records of an edge file: what their heads say, and the numbers in their bodies.
#![tactic(auto, unfolding(crate::specs::Records::low_first, crate::specs::Records::point_at, crate::specs::Records::tagged, crate::specs::Records::head_of, crate::specs::Records::kind_of, crate::specs::Records::edge_of, crate::specs::Records::record_of, crate::specs::Records::size_of))]

ghost use Rattle.std.specs.Prelude.{◌≡◌, [], ◌∷◌, ◌+◌, ◌*◌, ◌≤◌, length};
ghost use Rattle.edge_records.specs.Records.{low_first, number_at, point_at, tagged, length_of, head_of, kind_of, edge_of, record_of, size_of_kind, size_of};

use arcs::Arc;
use checked::of_bits;
use vectors::Vec3;

// The bytes of a record's head: the tag, and the length of what follows.
pub const HEAD: usize = 3;

// The bytes of an arc's record: its head, and thirteen numbers.
pub const ARC: usize = HEAD + 104;

// An arc with its two ends.
#[derive(Clone, Copy)]
pub struct Edge {
    pub arc: Arc,
    pub from: Vec3,
    pub to: Vec3,
}

// What the bytes of a file begin with; malformed where no record stands whole there.
#[derive(Clone, Copy)]
pub enum Record {
    Edge(Edge),
    End,
    Malformed,
}

// What the head of the first record announces; short where it or what it announces is cut.
#[derive(Clone, Copy)]
enum Kind {
    Arc,
    End,
    Unknown,
    Short,
}

impl Kind {
    // How many bytes such a record takes.
    fn size(self) -> usize
        ensures { result ≡ size_of_kind self }
    {
        match self {
            Kind::Arc => ARC,
            Kind::End | Kind::Unknown => HEAD,
            Kind::Short => 0,
        }
    }
}

fn tagged(tag: u8) -> Kind
    ensures { result ≡ tagged tag }
{
    match tag {
        1 => Kind::Arc,
        127 => Kind::End,
        _ => Kind::Unknown,
    }
}

fn head_of(tag: u8, low: u8, high: u8) -> Kind
    ensures { result ≡ head_of tag (low_first (low ∷ high ∷ [])) }
{
    let kind = tagged(tag);
    let length = u16::from_le_bytes([low, high]) as usize;
    if HEAD + length == kind.size() {
        kind
    } else {
        Kind::Unknown
    }
}

fn kind_of(bytes: &[u8]) -> Kind
    ensures { result ≡ kind_of bytes.now }
{
    let [tag, low, high, ..] = *bytes else {
        return Kind::Short;
    };
    let head = head_of(tag, low, high);
    if bytes.len() < head.size() {
        Kind::Short
    } else {
        head
    }
}

// The f64 whose bits stand from byte i on, low byte first.
fn number_at(i: usize, s: &[u8]) -> f64
    requires { i + 8 ≤ length s.now }
    ensures { result ≡ number_at i s.now }
{
    let mut word = [0; 8];
    word.copy_from_slice(&s[i..i + 8]);
    of_bits(u64::from_le_bytes(word))
}

// The point of three such numbers.
fn point_at(i: usize, s: &[u8]) -> Vec3
    requires { i + 24 ≤ length s.now }
    ensures { result ≡ point_at i s.now }
{
    Vec3 {
        x: number_at(i, s),
        y: number_at(i + 8, s),
        z: number_at(i + 16, s),
    }
}

// The edge whose numbers stand after the head of an arc's record.
fn edge_of(body: &[u8]) -> Edge
    requires { length_of Kind.Arc ≤ length body.now }
    ensures { result ≡ edge_of body.now }
{
    Edge {
        arc: Arc {
            center: point_at(0, body),
            axis: point_at(24, body),
            radius: number_at(48, body),
        },
        from: point_at(56, body),
        to: point_at(80, body),
    }
}

// The first record of some bytes.
pub fn record_of(bytes: &[u8]) -> Record
    ensures { result ≡ record_of bytes.now }
{
    match kind_of(bytes) {
        Kind::Arc => Record::Edge(edge_of(&bytes[HEAD..])),
        Kind::End => Record::End,
        Kind::Unknown | Kind::Short => Record::Malformed,
    }
}

// How many of the bytes the first record takes, and 0 where it goes on past them. A head that
// announces nothing known is taken by itself.
pub fn size_of(bytes: &[u8]) -> usize
    ensures { result ≡ size_of bytes.now }
{
    kind_of(bytes).size()
}
