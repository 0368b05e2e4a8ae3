// Which register is at an offset.

ghost use Rattle.std.specs.Prelude.{◌≡◌};
ghost use Rattle.questions.specs.Numbers.{number_in};
ghost use Rattle.pic_registers.specs.Offsets.{source_register, register_at, offset_refusal};

use crate::Register;
use pic_source::sources::is_source;
use questions::Refusal;

// The register of source s in a page of 4,096 bytes.
#[tactic(auto, unfolding(crate::specs::Offsets::source_register))]
fn source_register(page: u32, s: u8) -> Option<Register>
    ensures { result ≡ source_register page s }
{
    match page {
        0 => Some(Register::Meipl(s)),
        2 => Some(Register::Meie(s)),
        4 => Some(Register::Meigwctrl(s)),
        5 => Some(Register::Meigwclr(s)),
        _ => None,
    }
}

// The register at an offset, of a controller with n sources.
#[tactic(auto, unfolding(crate::specs::Offsets::page_register))]
pub(crate) fn register_at(n: u8, offset: u32) -> Option<Register>
    ensures { result ≡ register_at n offset }
{
    let page = offset / 4096;
    let i = offset % 4096 / 4;
    match page {
        1 if i < 8 => Some(Register::Meip(i as u8)),
        3 if i == 0 => Some(Register::Mpiccfg),
        1 | 3 => None,
        _ if is_source(n, i) => source_register(page, i as u8),
        _ => None,
    }
}

// Questions 10 and 11 of an offset.
#[tactic(auto, unfolding(crate::specs::Offsets::offset_refusal, questions::specs::Numbers::number_in))]
pub(crate) fn offset_refusal(offset: u32) -> Result<(), Refusal>
    ensures { number_in result ≡ offset_refusal offset }
{
    if 0x8000 <= offset {
        return Err(Refusal::OffsetTooHigh);
    }
    if offset % 4 != 0 {
        return Err(Refusal::OffsetNotAligned);
    }
    Ok(())
}
