// Lent buffers: what is stored from their start, and how many places two of them both have.
#![tactic(auto)]

ghost use Rattle.std.specs.Prelude.{◌≡◌};
ghost use Rattle.buffers.specs.Least.{least};

// The lesser of two numbers.
pub fn lesser(a: usize, b: usize) -> usize
    ensures { result ≡ least a b }
{
    a.min(b)
}
