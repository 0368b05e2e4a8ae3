// The registers of one source: what each reads, and what a store changes.
#![tactic(auto, unfolding(crate::specs::Registers::written_of))]

ghost use Rattle.std.specs.Prelude.{◌≡◌, ◌+◌, ◌*◌, Some};
ghost use Rattle.pic.specs.Sources.{field_at, enable_at, trigger_at, polarity_at, settle_at};
ghost use Rattle.pic_registers.specs.Registers.{written_of};
ghost use Rattle.pic_registers.specs.declared.Register.TheVariants.{Meipl, Meie, Mpiccfg, Meigwctrl, Meigwclr};

use pic::Controller;
use pic_source::sources::latch_after;

// The field of source s.
pub(crate) fn field_at(c: Controller, s: u8) -> u32
    ensures { result ≡ (field_at c s).0 }
{
    c.field[s as usize] as u32
}

pub(crate) fn enable_at(c: Controller, s: u8) -> u32
    ensures { result ≡ enable_at c s }
{
    c.enable[s as usize] as u32
}

// The word of meigwctrl: bit 1 type, bit 0 polarity.
pub(crate) fn gateway_at(c: Controller, s: u8) -> u32
    ensures { result ≡ 2 * trigger_at c s + polarity_at c s }
{
    let i = s as usize;
    2 * (c.trigger[i] as u32) + (c.polarity[i] as u32)
}

// The latch of source s, set where its line is active.
pub(crate) fn settle_at(c: &mut Controller, s: u8)
    ensures { c.new ≡ settle_at c.old s }
{
    let i = s as usize;
    c.latch[i] = latch_after(c.line[i], c.polarity[i], c.latch[i]);
}

// The field of source s, bits 3:0 of v.
pub(crate) fn write_field(mut c: Controller, s: u8, v: u32) -> Controller
    ensures { result ≡ written_of c (Some (Meipl s)) v }
{
    c.field[s as usize] = (v % 16) as u8;
    c
}

pub(crate) fn write_enable(mut c: Controller, s: u8, v: u32) -> Controller
    ensures { result ≡ written_of c (Some (Meie s)) v }
{
    c.enable[s as usize] = (v % 2) as u8;
    c
}

pub(crate) fn write_priord(mut c: Controller, v: u32) -> Controller
    ensures { result ≡ written_of c (Some Mpiccfg) v }
{
    c.scalars.priord = (v % 2) as u8;
    c
}

// The type and the polarity of source s, and its latch where that makes its line active.
pub(crate) fn write_gateway(mut c: Controller, s: u8, v: u32) -> Controller
    ensures { result ≡ written_of c (Some (Meigwctrl s)) v }
{
    let i = s as usize;
    c.trigger[i] = (v / 2 % 2) as u8;
    c.polarity[i] = (v % 2) as u8;
    settle_at(&mut c, s);
    c
}

// The latch of source s cleared, and set again where its line is active.
pub(crate) fn clear_latch(mut c: Controller, s: u8) -> Controller
    ensures { result ≡ written_of c (Some (Meigwclr s)) 0 }
{
    c.latch[s as usize] = 0;
    settle_at(&mut c, s);
    c
}
