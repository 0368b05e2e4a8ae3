// Lines sampled a word at a time, and the words of pending bits.

ghost use Rattle.std.specs.Prelude.{◌≡◌, ◌<◌};
ghost use Rattle.pic_registers.specs.Registers.{sampled, pending_word};

use crate::values::settle_at;
use pic::Controller;
use pic_bits::bit;
use pic_source::sources::is_source;

// The lines of word x take the bits of v, and each latch follows its line.
pub(crate) fn take_lines(mut c: Controller, x: u8, v: u32) -> Controller
    requires { x < 8 }
    ensures { result ≡ sampled c x v }
{
    for y in 0..32 {
        let s = 32 * x + y;
        if is_source(c.sources, s as u32) {
            c.line[s as usize] = bit(v, y) as u8;
            settle_at(&mut c, s);
        }
    }
    c
}

// The pending bits of the sources of word x.
pub(crate) fn pending_word(c: Controller, x: u8) -> u32
    requires { x < 8 }
    ensures { result ≡ pending_word c x }
{
    let mut w: u32 = 0;
    for y in 0..32 {
        let s = 32 * x + y;
        if is_source(c.sources, s as u32) & c.is_pending(s) {
            w |= 1 << y;
        }
    }
    w
}
