// The record player as two calls for programs in C and Rust: as text, and as numbers.
// Lengths, refusals and places as numbers, arrays beside one another, and seven numbers for a struct: C is promised these.
#![tactic(auto)]

ghost use Rattle.std.specs.Prelude.{◌≡◌, length};
ghost use Rattle.record.specs.Record.{board};
ghost use Rattle.playback.specs.Print.{printed_length, printed_into};
ghost use Rattle.playback_numbers.specs.Numbers.{numbers_of, answers_left, refusals_left};
ghost use Rattle.veer_eh1.specs.End.{seven_of};

// Plays a record from its bytes. The print stands in the first places of `print`, whose rest stays, and the answer is its length. Where `print` has less room
// than the record's print may need, nothing is changed, and the answer is 0.
#[unsafe(no_mangle)]
pub extern "C" fn veer_eh1_play(record: &[u8], print: &mut [u8]) -> usize
    ensures value { result ≡ printed_length board «record».now (length print.old) }
    ensures print_after { print.new ≡ printed_into board «record».now print.old }
{
    playback::print_into(record, print)
}

// Plays a record from its bytes. What its events answer and what they are refused with stands in the first places of `answers` and `refusals`, whose rest
// stays; `end` has refusal, place, N, n, and of the machine at the end the open handlers, the level and the margin. The answer is the refusal.
#[unsafe(no_mangle)]
pub extern "C" fn veer_eh1_numbers(
    record: &[u8],
    answers: &mut [u32],
    refusals: &mut [u8],
    end: &mut [i32; 7],
) -> u8
    ensures value { result ≡ (numbers_of «record».now (length answers.old) (length refusals.old)).refusal }
    ensures answers_after { answers.new ≡ answers_left «record».now answers.old refusals.old }
    ensures refusals_after { refusals.new ≡ refusals_left «record».now answers.old refusals.old }
    ensures end_after { end.new ≡ seven_of (numbers_of «record».now (length answers.old) (length refusals.old)) }
{
    match playback_numbers::play(record, answers, refusals) {
        Ok(q) => {
            *end = [
                0,
                0,
                i32::from(q.sources),
                i32::from(q.events),
                i32::from(q.depth),
                i32::from(q.level),
                q.margin,
            ];
            0
        }
        Err(no) => {
            let refusal = u8::from(no.refusal);
            *end = [i32::from(refusal), no.place as i32, 0, 0, 0, 0, 0];
            refusal
        }
    }
}
