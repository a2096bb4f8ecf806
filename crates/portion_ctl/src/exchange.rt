// The access of an act, over the parts of a portion.
ghost use Rattle.std.specs.Prelude.{ℕ, Bool, ◌≡◌, ◌%◌, false};
ghost use Rattle.conda_base.specs.Lines.{IsAccessSize};
ghost use Rattle.rv32_hart.specs.declared.act.Access.TheVariants as Access_is;
ghost use Rattle.rv32_hart.specs.Act.{is_call_access};
ghost use Rattle.portion_ctl.specs.Bodies.{AccessIn, ChangesLines, ExchangesAll, HasParts, IsAccessIn, StoresAll};

use crate::accesses::{Sought, fetch, is_at_limit, load_end, put, take};
use crate::body::Body;
use conda_base::line_of;
use line_memory::Backing;
use nda_cache::{Look, Stored};
use rv32_decode::AmoOp;
use rv32_hart::{Access, amo_result};
use traffic_trace::Traffic;

// Makes a load, or gives the cause that stands against it.
pub fn load<B: Backing>(
    b: &mut Body,
    mem: &B,
    log: &mut Traffic,
    addr: u32,
    size: u8,
) -> Result<u32, u8>
    requires parts { HasParts b.old }
    requires access { IsAccessIn (B.shown mem.now) b.old.cache.line_bytes addr size }
    ensures loads { (signed : Bool) (rd : ℕ)
        → ExchangesAll (B.shown mem.now) b.old (Access_is.Load addr size signed rd) log.old result
        b.new log.new }
    ensures changes { ChangesLines b.old b.new }
    ensures parts { HasParts b.new }
{
    let l = line_of(addr, b.limits.line_bytes);
    let found = b.cache.find(l);
    match b.cache.look_found(found, addr, size) {
        Look::Known(value) => Ok(value),
        Look::Full => Err(4),
        Look::Missing => {
            if !b.read_set.insert_up_to(l, b.limits.read_limit) {
                return Err(5);
            }
            let sought = Sought {
                l,
                found,
                addr,
                size,
            };
            Ok(fetch(b.core, &mut b.cache, mem, log, sought).value)
        }
    }
}

// Makes a store, or gives the cause that stands against it.
pub fn store(b: &mut Body, addr: u32, size: u8, value: u32) -> Option<u8>
    requires parts { HasParts b.old }
    requires size { IsAccessSize size }
    requires aligned { addr % size ≡ 0 }
    ensures stores { StoresAll b.old (Access_is.Store addr size value) result b.new }
    ensures changes { ChangesLines b.old b.new }
    ensures parts { HasParts b.new }
{
    let l = line_of(addr, b.limits.line_bytes);
    let refused = is_at_limit(&b.write_set, b.limits.write_limit, l);
    match b.cache.store_unless(addr, size, value, refused) {
        Stored::Full => Some(4),
        Stored::Refused => Some(6),
        Stored::Done => {
            b.write_set.insert(l);
            None
        }
    }
}

// Makes an atomic, which is a load and then a store, or gives the cause that stands against it.
pub fn atomic<B: Backing>(
    b: &mut Body,
    mem: &B,
    log: &mut Traffic,
    addr: u32,
    op: AmoOp,
    value: u32,
) -> Result<u32, u8>
    requires parts { HasParts b.old }
    requires access { IsAccessIn (B.shown mem.now) b.old.cache.line_bytes addr 4 }
    ensures changed { (rd : ℕ)
        → ExchangesAll (B.shown mem.now) b.old (Access_is.Amo addr op rd value) log.old result
        b.new log.new }
    ensures changes { ChangesLines b.old b.new }
    ensures parts { HasParts b.new }
{
    let l = line_of(addr, b.limits.line_bytes);
    let found = b.cache.find(l);
    let look = b.cache.look_found(found, addr, 4);
    if let Some(cause) = load_end(look, &b.read_set, b.limits.read_limit, l) {
        return Err(cause);
    }
    if !b.write_set.insert_up_to(l, b.limits.write_limit) {
        return Err(6);
    }
    let taken = take(
        b.core,
        &mut b.cache,
        &mut b.read_set,
        mem,
        log,
        look,
        Sought {
            l,
            found,
            addr,
            size: 4,
        },
    );
    let word = amo_result(op, taken.value, value);
    put(&mut b.cache, taken.found, l, addr, 4, word);
    Ok(taken.value)
}

// Makes the access of an act that is no call, and gives the value that it loads, or 0; or the
// cause that stands against it.
pub fn exchange<B: Backing>(
    b: &mut Body,
    mem: &B,
    log: &mut Traffic,
    access: Access,
) -> Result<u32, u8>
    requires parts { HasParts b.old }
    requires access { AccessIn (B.shown mem.now) b.old.cache.line_bytes access }
    requires no_call { is_call_access access ≡ false }
    ensures exchanges { ExchangesAll (B.shown mem.now) b.old access log.old result b.new log.new }
    ensures changes { ChangesLines b.old b.new }
    ensures parts { HasParts b.new }
{
    match access {
        Access::Nothing | Access::Call => Ok(0),
        Access::Load { addr, size, .. } => load(b, mem, log, addr, size),
        Access::Store { addr, size, value } => match store(b, addr, size, value) {
            None => Ok(0),
            Some(cause) => Err(cause),
        },
        Access::Amo {
            addr,
            op,
            value,
            ..
        } => atomic(b, mem, log, addr, op, value),
    }
}
