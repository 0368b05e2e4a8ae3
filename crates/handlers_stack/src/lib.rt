// The stack of handlers: its places, when it is sound, and the current rank that goes with its uppermost handler.
#![tactic(auto)]

ghost use Rattle.std.specs.Prelude.{◌≡◌, set};
ghost use Rattle.handlers_stack.specs.Stacks.{blank, sound_over, handler_at, uppermost_of, handlers_sound, level_of};

use pic_source::Rank;

// A handler on the stack: its source, its rank, the current rank that its return puts back, and 1 once it was opened.
#[derive(Clone, Copy)]
pub struct Handler {
    pub source: u8,
    pub rank: Rank,
    pub saved: Rank,
    // A number, and no bool: question 8 is asked of any handler, sound or not (`handler_sound`).
    pub opened: u8,
}

// The current rank that goes with an uppermost handler.
#[tactic(auto, unfolding(crate::specs::Stacks::level_of))]
pub fn level(h: Handler) -> Rank
    ensures { result ≡ level_of h }
{
    if h.opened == 1 { h.rank } else { h.saved }
}

// A place of the stack that holds no handler yet.
pub fn no_handler() -> Handler
    ensures { result ≡ blank }
{
    Handler {
        source: 0,
        rank: Rank(0),
        saved: Rank(0),
        opened: 0,
    }
}

// One handler of n sources: top where it is the uppermost, below the rank of the handler under it, where it is not the lowest.
#[tactic(auto, unfolding(crate::specs::Stacks::handler_sound))]
fn handler_sound(n: u8, top: bool, below: Option<Rank>, h: Handler) -> bool
    ensures { result ≡ sound_over n top below h }
{
    (1 <= h.source)
        & (h.source <= n)
        & (1 <= h.rank.0)
        & (h.rank.0 <= 15)
        & below.is_none_or(|below| (below < h.rank) & (h.saved == below))
        & (h.opened <= 1)
        & (top | (h.opened == 1))
        & (h.saved < h.rank)
}

// Handler k, counted from the lowest, 0.
fn handler_at(stack: [Handler; 15], k: usize) -> Handler
    ensures { result ≡ handler_at stack k }
{
    stack.get(k).copied().unwrap_or(no_handler())
}

// The uppermost handler of a stack of this depth; without one, what is in the lowest place.
// No Option: published, and by the rule `uppermost_of` it is a handler of any stack and depth, sound or not.
pub fn uppermost(stack: [Handler; 15], depth: u8) -> Handler
    ensures { result ≡ uppermost_of stack depth }
{
    handler_at(stack, depth.saturating_sub(1) as usize)
}

// The stack with h at place k, where it has that place.
pub fn put(mut stack: [Handler; 15], k: u8, h: Handler) -> [Handler; 15]
    ensures { result ≡ set stack k h }
{
    let i = k as usize;
    // tried: by `get_mut` the check did not close it.
    if i < 15 {
        stack[i] = h;
    }
    stack
}

// Whether the handlers of a stack of this depth are sound, with n sources.
#[tactic(auto, using(crate::proofs::Stacks::handlers_turn), unfolding(crate::specs::Stacks::handlers_sound, crate::proofs::Stacks::rank_under))]
pub fn handlers_sound(n: u8, depth: u8, stack: [Handler; 15]) -> bool
    ensures { result ≡ handlers_sound n depth stack depth }
{
    let d = depth as usize;
    let mut ok = true;
    let mut below = None;
    // By the index: a depth above 15, which is not sound, is asked too.
    for k in 0..d {
        let h = handler_at(stack, k);
        let good = handler_sound(n, k + 1 == d, below, h);
        ok = ok & good;
        below = Some(h.rank);
    }
    ok
}
