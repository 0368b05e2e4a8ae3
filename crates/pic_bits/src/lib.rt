// Words of bits: 32 sources, a bit each.
#![tactic(auto)]

ghost use Rattle.std.specs.Prelude.{◌≡◌, ◌%◌};
ghost use Rattle.pic_bits.specs.Bits.{bit_of, lowest_bit};

// Bit y of a word. A place above 31 stands for what is left of it by 32.
pub fn bit(v: u32, y: u8) -> u32
    ensures { result ≡ bit_of v (y % 32) }
{
    (v >> ((y % 32) as u32)) & 1
}

// The lowest set bit of a word, 32 where it has none.
// No Option: 32 is what the published call answers.
pub fn lowest_bit(w: u32) -> u32
    ensures { result ≡ lowest_bit w }
{
    u32::trailing_zeros(w)
}
