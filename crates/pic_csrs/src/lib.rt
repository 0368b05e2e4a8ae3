// The control and status registers: what each reads, what a write changes, and the calls with their questions in order.
#![tactic(auto)]

ghost use Rattle.std.specs.Prelude.{◌≡◌, Some};
ghost use Rattle.pic_csrs.specs.Addresses.{csr_at};
ghost use Rattle.pic_csrs.specs.Values.{csr_value, csr_written};
ghost use Rattle.pic_csrs.specs.Calls.{csr_read_of, csr_write_of};

use outcome::Answering;
use pic::calls::meihap;
use pic::{Controller, Outcome, Scalars};
use pic_source::Field;
use questions::Refusal;

#[derive(Clone, Copy)]
pub enum Csr {
    Meivt,
    Meipt,
    Meicpct,
    Meicidpl,
    Meicurpl,
    Meihap,
}

// The CSR that has an address.
#[tactic(auto, unfolding(crate::specs::Addresses::csr_at))]
fn csr_at(address: u32) -> Option<Csr>
    ensures { result ≡ csr_at address }
{
    match address {
        0xBC8 => Some(Csr::Meivt),
        0xBC9 => Some(Csr::Meipt),
        0xBCA => Some(Csr::Meicpct),
        0xBCB => Some(Csr::Meicidpl),
        0xBCC => Some(Csr::Meicurpl),
        0xFC8 => Some(Csr::Meihap),
        _ => None,
    }
}

// What a CSR reads.
#[tactic(auto, unfolding(crate::specs::Values::csr_value))]
fn csr_value(s: Scalars, csr: Csr) -> u32
    ensures { result ≡ csr_value s (Some csr) }
{
    match csr {
        Csr::Meivt => s.base,
        Csr::Meipt => s.threshold.0 as u32,
        Csr::Meicpct => 0,
        Csr::Meicidpl => s.claimed.0 as u32,
        Csr::Meicurpl => s.current.0 as u32,
        Csr::Meihap => meihap(s.base, s.claim),
    }
}

// A write of v to a CSR other than meicpct.
#[tactic(auto, unfolding(crate::specs::Values::csr_written))]
fn csr_written(mut s: Scalars, csr: Csr, v: u32) -> Scalars
    ensures { result ≡ csr_written s (Some csr) v }
{
    let f = Field((v % 16) as u8);
    match csr {
        Csr::Meivt => s.base = v / 1024 * 1024,
        Csr::Meipt => s.threshold = f,
        Csr::Meicidpl => s.claimed = f,
        Csr::Meicurpl => s.current = f,
        Csr::Meicpct | Csr::Meihap => {}
    }
    s
}

// A read of a CSR.
#[tactic(auto, unfolding(crate::specs::Calls::csr_read_of))]
pub fn csr_read(c: Controller, address: u32) -> Outcome
    ensures { result ≡ csr_read_of c address }
{
    match csr_at(address) {
        Some(csr) => c.accept(csr_value(c.scalars, csr)),
        None => c.refuse_for(Refusal::NoSuchCsr),
    }
}

// A write of v to a CSR.
#[tactic(auto, unfolding(crate::specs::Calls::csr_write_of))]
pub fn csr_write(mut c: Controller, address: u32, v: u32) -> Outcome
    ensures { result ≡ csr_write_of c address v }
{
    let Some(csr) = csr_at(address) else {
        return c.refuse_for(Refusal::NoSuchCsr);
    };
    match csr {
        Csr::Meihap => c.refuse_for(Refusal::ReadOnlyCsr),
        Csr::Meicpct => {
            let w = c.winner();
            c.capture(w).accept(0)
        }
        _ => {
            c.scalars = csr_written(c.scalars, csr, v);
            c.accept(0)
        }
    }
}
