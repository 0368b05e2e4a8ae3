// Sources a word at a time: the values of the 32 sources of a word, a bit each. Bit y of word x is source 32 x + y.
#![tactic(auto)]

ghost use Rattle.std.specs.Prelude.{◌≡◌, ◌%◌, ◌/◌, ◌^◌, eqb};
ghost use Rattle.pic_bits.specs.Bits.{bit_of, has_bit};
ghost use Rattle.pic_words.specs.Words.{bits_put, latches_after, low_of, source_bits, changed, sampled_source, enabled_source, gateway_source, cleared_source, pending_of, ready_of};

// The values of the sources of a word.
#[derive(Clone, Copy)]
pub struct Word {
    pub enable: u32,
    pub trigger: u32,
    pub polarity: u32,
    pub line: u32,
    pub latch: u32,
}

// The bit of word x that is below all sources: bit 0 of word 0.
fn low_bit(x: u8) -> u32
    ensures { result ≡ low_of x }
{
    u32::from(x == 0)
}

// The bits of the sources 1 to n in word x.
pub fn source_bits(n: u8, x: u8) -> u32
    ensures { result ≡ source_bits n x }
{
    let first = 32 * (x as u32);
    let end = (n as u32) + 1;
    let low = low_bit(x);
    if end <= first {
        return 0;
    }
    if first + 32 <= end {
        return u32::MAX - low;
    }
    (1 << (end - first)) - 1 - low
}

// The bits of v where mask has one, else those of w.
fn chosen(mask: u32, v: u32, w: u32) -> u32
    ensures { result ≡ bits_put (has_bit mask) (bit_of v) w }
{
    v & mask | w & (mask ^ u32::MAX)
}

// The latches of the sources in has, set where their lines are active.
fn settled(has: u32, line: u32, polarity: u32, latch: u32) -> u32
    ensures { result ≡ latches_after (has_bit has) line polarity latch }
{
    latch | (line ^ polarity) & has
}

// The word of bit y alone. A place above 31 stands for what is left of it by 32.
fn only(y: u8) -> u32
    ensures { result ≡ 2 ^ (y % 32) }
{
    1 << ((y % 32) as u32)
}

// Bit y of w becomes bit 0 of v.
fn with_bit(w: u32, y: u8, v: u32) -> u32
    ensures { result ≡ bits_put (λ z. eqb z (y % 32)) (λ _. v % 2) w }
{
    let b = only(y);
    chosen(b, b * (v % 2), w)
}

impl Word {
    // Of the sources in has, those that are pending.
    pub fn pending(self, has: u32) -> u32
        ensures { result ≡ pending_of self has }
    {
        chosen(self.trigger, self.latch, self.line ^ self.polarity) & has
    }

    // Of the sources in has, those that are enabled and pending.
    pub fn ready(self, has: u32) -> u32
        ensures { result ≡ ready_of self has }
    {
        self.pending(has) & self.enable
    }

    // A sample: the lines of the sources in has take the bits of v.
    pub fn sampled(mut self, has: u32, v: u32) -> Word
        ensures { result ≡ changed self (has_bit has) (λ y s. sampled_source s (bit_of v y)) }
    {
        self.line = chosen(has, v, self.line);
        self.latch = settled(has, self.line, self.polarity, self.latch);
        self
    }

    // A store of v to the meie of the source of bit y: its enable becomes bit 0.
    pub fn with_enable(mut self, y: u8, v: u32) -> Word
        ensures { result ≡ changed self (λ z. eqb z (y % 32)) (λ _ s. enabled_source s (v % 2)) }
    {
        self.enable = with_bit(self.enable, y, v);
        self
    }

    // A store of v to its meigwctrl: its type becomes bit 1, and its polarity bit 0.
    pub fn with_gateway(mut self, y: u8, v: u32) -> Word
        ensures { result ≡ changed self (λ z. eqb z (y % 32)) (λ _ s. gateway_source s (v / 2 % 2) (v % 2)) }
    {
        self.trigger = with_bit(self.trigger, y, v / 2);
        self.polarity = with_bit(self.polarity, y, v);
        self.latch = settled(only(y), self.line, self.polarity, self.latch);
        self
    }

    // A store to its meigwclr: its latch is cleared, and set again where its line is active.
    pub fn cleared(mut self, y: u8) -> Word
        ensures { result ≡ changed self (λ z. eqb z (y % 32)) (λ _ s. cleared_source s) }
    {
        let latch = with_bit(self.latch, y, 0);
        self.latch = settled(only(y), self.line, self.polarity, latch);
        self
    }
}
