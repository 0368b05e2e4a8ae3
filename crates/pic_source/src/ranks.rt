// Ranks and fields, turned into one another by the priord mirror alone.

ghost use Rattle.std.specs.Prelude.{◌≡◌, pos};
ghost use Rattle.pic_source.specs.Ranks.{mirror, field_of, rank_of};
ghost use Rattle.pic_source.specs.ClosedForm.{order_of, closed_form};

use crate::{Field, Rank};

// field + priord × (15 − 2 × field) over signed numbers, of a field or a rank n: n or 15 − n, with no branch.
fn closed_form(priord: u8, n: u8) -> i32
    ensures { result ≡ closed_form (pos priord) (pos n) }
{
    let p = priord as i32;
    let f = n as i32;
    f + p * (15 - 2 * f)
}

// 0 for priord 0, else 1. It is worked out, and not asked: of a question the compiler makes a branch, and of the winner's loop two.
#[tactic(auto, unfolding(crate::specs::ClosedForm::order_of))]
fn order(priord: u8) -> u8
    ensures { result ≡ order_of priord }
{
    ((priord as u32 + 255) / 256) as u8
}

// n, or 15 less n where priord is not 0. What would be below 0 is 0; a sound controller has no such number. By a product, as `order` by a quotient: the mirror
// calls no function of another file, in which a branch might stand (tests/mirror).
fn mirrored(priord: u8, n: u8) -> u8
    ensures { result ≡ mirror priord n }
{
    let z = closed_form(order(priord), n);
    (z * ((z >= 0) as i32)) as u8
}

// The field of a rank.
pub fn to_field(priord: u8, rank: Rank) -> Field
    ensures { result ≡ field_of priord rank }
{
    Field(mirrored(priord, rank.0))
}

// The rank of a field.
pub fn to_rank(priord: u8, field: Field) -> Rank
    ensures { result ≡ rank_of priord field }
{
    Rank(mirrored(priord, field.0))
}
