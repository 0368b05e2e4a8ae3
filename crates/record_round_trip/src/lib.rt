// A record written and read, and one read and written.
#![tactic(auto)]

ghost use Rattle.std.specs.Prelude.{◌≡◌, length};
ghost use Rattle.record.specs.Record.{board};
ghost use Rattle.record.specs.Answers.{read_numbers, read_heads, read_values, write_numbers, written_bytes};
ghost use Rattle.record_round_trip.specs.RoundTrip.{write_read_answer, write_read_heads, write_read_values, ReadsBack, read_write_answer, read_write_bytes, WritesBack};

use record::{Refused, Sizes};

// Writes a record, and reads what was written. Where the writing is refused, its refusal is the answer, and nothing is read.
pub fn write_then_read(
    sources: u32,
    heads: &[u32],
    values: &[u32],
    bytes: &mut [u8],
    heads_back: &mut [u32],
    values_back: &mut [u32],
) -> Result<Sizes, Refused>
    ensures result_value { read_numbers result ≡ write_read_answer board sources heads.now values.now
        (length bytes.old) (length heads_back.old) (length values_back.old) }
    ensures bytes_after { bytes.new ≡ written_bytes sources heads.now values.now bytes.old }
    ensures heads_back_after { heads_back.new ≡ write_read_heads board sources heads.now values.now
        (length bytes.old) heads_back.old values_back.old }
    ensures values_back_after { values_back.new ≡ write_read_values board sources heads.now values.now
        (length bytes.old) heads_back.old values_back.old }
    ensures reads_back { ReadsBack sources heads.now values.now (length bytes.old) heads_back.old values_back.old
        (read_numbers result) heads_back.new values_back.new }
{
    let length = record_writer::write(sources, heads, values, bytes)?;
    record::read(&bytes[..length], heads_back, values_back)
}

// Reads a record, and writes what was read. Where the reading is refused, its refusal is the answer, and nothing is written.
pub fn read_then_write(
    bytes: &[u8],
    heads: &mut [u32],
    values: &mut [u32],
    back: &mut [u8],
) -> Result<usize, Refused>
    ensures result_value { write_numbers result ≡ read_write_answer board bytes.now (length heads.old) (length values.old)
        (length back.old) }
    ensures heads_after { heads.new ≡ read_heads board bytes.now heads.old values.old }
    ensures values_after { values.new ≡ read_values board bytes.now heads.old values.old }
    ensures back_after { back.new ≡ read_write_bytes board bytes.now (length heads.old) (length values.old)
        back.old }
    ensures writes_back { WritesBack board bytes.now (length heads.old) (length values.old) back.old
        (write_numbers result) back.new }
{
    let sizes = record::read(bytes, heads, values)?;
    let n = sizes.events;
    record_writer::write(sizes.sources, &heads[..n], &values[..n], back)
}
