// Samples of the lines, and loads and stores of the memory-mapped registers.
#![tactic(auto)]

mod decoding;
mod samples;
mod values;

ghost use Rattle.std.specs.Prelude.{◌≡◌, true, Some};
ghost use Rattle.pic_registers.specs.Offsets.{is_register};
ghost use Rattle.pic_registers.specs.Registers.{read_of, written_of};
ghost use Rattle.pic_registers.specs.Calls.{sample_of, load_of, store_of};

use crate::decoding::{offset_refusal, register_at};
use crate::samples::{pending_word, take_lines};
use crate::values::{
    clear_latch, enable_at, field_at, gateway_at, write_enable, write_field, write_gateway,
    write_priord,
};
use outcome::Answering;
use pic::{Controller, Outcome};
use questions::Refusal;

// The registers by source number, or by word for meip.
#[derive(Clone, Copy)]
pub enum Register {
    Meipl(u8),
    Meip(u8),
    Meie(u8),
    Mpiccfg,
    Meigwctrl(u8),
    Meigwclr(u8),
}

// What a register reads.
#[tactic(auto, unfolding(crate::specs::Registers::read_of))]
fn read(c: Controller, r: Register) -> u32
    requires { is_register c.sources (Some r) ≡ true }
    ensures { result ≡ read_of c (Some r) }
{
    match r {
        Register::Meipl(s) => field_at(c, s),
        Register::Meip(x) => pending_word(c, x),
        Register::Meie(s) => enable_at(c, s),
        Register::Mpiccfg => c.scalars.priord as u32,
        Register::Meigwctrl(s) => gateway_at(c, s),
        Register::Meigwclr(_) => 0,
    }
}

// A store of v to a register.
#[tactic(auto, unfolding(crate::specs::Registers::written_of))]
fn write(c: Controller, r: Register, v: u32) -> Controller
    ensures { result ≡ written_of c (Some r) v }
{
    match r {
        Register::Meipl(s) => write_field(c, s, v),
        Register::Meip(_) => c,
        Register::Meie(s) => write_enable(c, s, v),
        Register::Mpiccfg => write_priord(c, v),
        Register::Meigwctrl(s) => write_gateway(c, s, v),
        Register::Meigwclr(s) => clear_latch(c, s),
    }
}

// The lines of word x take the bits of v.
#[tactic(auto, unfolding(crate::specs::Calls::sample_of))]
pub fn sample(c: Controller, x: u32, v: u32) -> Outcome
    ensures { result ≡ sample_of c x v }
{
    if 7 < x {
        return c.refuse_for(Refusal::NoSuchWord);
    }
    take_lines(c, x as u8, v).accept(0)
}

// A load of the word at an offset.
pub fn load(c: Controller, offset: u32) -> Outcome
    ensures { result ≡ load_of c offset }
{
    if let Err(q) = offset_refusal(offset) {
        return c.refuse_for(q);
    }
    let a = match register_at(c.sources, offset) {
        Some(r) => read(c, r),
        None => 0,
    };
    c.accept(a)
}

// A store of the word v at an offset.
pub fn store(c: Controller, offset: u32, v: u32) -> Outcome
    ensures { result ≡ store_of c offset v }
{
    if let Err(q) = offset_refusal(offset) {
        return c.refuse_for(q);
    }
    match register_at(c.sources, offset) {
        Some(r) => write(c, r, v).accept(0),
        None => c.accept(0),
    }
}
