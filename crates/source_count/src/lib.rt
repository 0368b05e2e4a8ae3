// N, the number of sources of a record and of a controller.
#![tactic(auto)]

ghost use Rattle.std.specs.Prelude.{◌≡◌};
ghost use Rattle.source_count.specs.Count.{is_count};

// The most sources that there can be.
pub const MOST_SOURCES: u32 = 255;

// Question 2: whether n can be the number of sources.
pub fn is_count(n: u32) -> bool
    ensures { result ≡ is_count n }
{
    (2..=MOST_SOURCES).contains(&n)
}
