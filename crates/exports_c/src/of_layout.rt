// The layout of records and answers.
ghost use Rattle.std.specs.Prelude.{◌≡◌};
ghost use Rattle.exports.specs.Layout as Layout;

// The number of this layout of arrays and answers, which is also in the name, so that a program made for another one does not link.
#[unsafe(no_mangle)]
pub extern "C" fn jr_layout_1() -> u32
    ensures { result ≡ Layout.LAYOUT }
{
    exports::of_layout::jr_layout_1()
}
