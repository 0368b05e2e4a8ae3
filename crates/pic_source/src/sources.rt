// Whether a number is a source's, and whether a source is pending or waits to be served, by its values; and its latch after an event.

ghost use Rattle.std.specs.Prelude.{◌≡◌};
ghost use Rattle.pic_source.specs.Sources.{is_source, latch_after, is_pending, is_waiting};

// Whether s is a source of the n.
pub fn is_source(n: u8, s: u32) -> bool
    ensures { result ≡ is_source n s }
{
    (1..=u32::from(n)).contains(&s)
}

// A latch after an event that left its line, its polarity and itself so.
// Loose values, here and below: these are published, and the rules that docs/RULES.md cites have the same arguments.
pub fn latch_after(line: u8, polarity: u8, latch: u8) -> u8
    ensures { result ≡ latch_after line polarity latch }
{
    if line != polarity { 1 } else { latch }
}

// Whether a source is pending.
#[tactic(auto, unfolding(crate::specs::Sources::is_pending))]
pub fn pending(trigger: u8, polarity: u8, line: u8, latch: u8) -> bool
    ensures { result ≡ is_pending trigger polarity line latch }
{
    if trigger == 0 {
        line != polarity
    } else {
        latch == 1
    }
}

// Whether a source is enabled and pending.
pub fn waiting(enable: u8, trigger: u8, polarity: u8, line: u8, latch: u8) -> bool
    ensures { result ≡ is_waiting enable trigger polarity line latch }
{
    (enable == 1) & pending(trigger, polarity, line, latch)
}
