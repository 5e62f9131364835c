// What C keeps of a pass: the address of its seat, and whether there is one.
ghost use Rattle.std.specs.Prelude.{◌≡◌, ◌≢◌, ◌↔◌, Some, None, true, IsSome, IfSome, IfNone};

use crate::address::Address;
use crate::seat::Seat;
use std::alloc::Global;
use std::mem::replace;

/// The state of a pass that can make calls. Any other is that of no pass.
const OPEN: u32 = 1;

/// A pass, in memory that C keeps. Where all bytes are zero there is none.
#[repr(C)]
pub struct BqPass {
    pub address: Address,
    pub state: u32,
    alloc: Global,
    ghost open_has_a_seat: { state ≡ 1 → IsSome address.seat },
    ghost closed_has_none: { state ≢ 1 → address.seat ≡ None },
}

impl BqPass {
    // No pass.
    fn none(alloc: Global) -> BqPass
        ensures closed { result.state ≡ 0 }
        ensures seat { result.address.seat ≡ None }
    {
        BqPass {
            address: Address::none(),
            state: 0,
            alloc,
        }
    }

    /// Whether there is a pass.
    pub fn is_open(&self) -> bool
        ensures { (result ≡ true) ↔ (self.now.state ≡ 1) }
    {
        self.state == OPEN
    }

    // Its seat, if there is one.
    fn into_seat(self) -> Option<Box<Seat>>
        ensures seat { IfSome result (λ seat. (self.state ≡ 1) × (self.address.seat ≡ Some seat.value)) }
        ensures none { IfNone result (self.state ≢ 1) }
    {
        let BqPass {
            address,
            state,
            alloc,
        } = self;
        if state == OPEN {
            Some(address.into_seat(alloc))
        } else {
            None
        }
    }

    /// Takes out the seat, if there is one.
    pub fn take(&mut self, alloc: Global) -> Option<Box<Seat>>
        ensures seat { IfSome result (λ seat. (self.old.state ≡ 1) × (self.old.address.seat ≡ Some seat.value)) }
        ensures none { IfNone result ((self.old.state ≢ 1) × (self.new ≡ self.old)) }
        ensures closed { self.new.state ≢ 1 }
    {
        if self.state != OPEN {
            return None;
        }
        replace(self, BqPass::none(alloc)).into_seat()
    }

    /// Puts in a seat. One that was there is dropped.
    pub fn put(&mut self, seat: Box<Seat>)
        ensures open { self.new.state ≡ 1 }
        ensures seat { self.new.address.seat ≡ Some seat.value }
    {
        *self = BqPass {
            address: Address::of(seat),
            state: OPEN,
            alloc: self.alloc,
        };
    }
}

impl Drop for BqPass {
    fn drop(self) {
        let _seat = self.into_seat();
    }
}
