// The layout of records and answers.
ghost use Rattle.std.specs.Prelude.{◌≡◌};
ghost use Rattle.exports.specs.Layout as Layout;

// Counted up, here and in the name below, where an array or an answer changes its layout: what was compiled for another one then finds
// no such name when it is linked.
const LAYOUT: u32 = 1;

// The number of this layout of arrays and answers, which is also in the name, so that a program made for another one does not link.
pub fn jr_layout_1() -> u32
    ensures { result ≡ Layout.LAYOUT }
{
    LAYOUT
}
