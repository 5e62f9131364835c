// The address at which a seat lies while C keeps the pass.
ghost use Rattle.std.specs.Prelude.{◌≡◌, Option, Some, None, IsSome};
ghost use Rattle.bq_c.specs.declared.seat.Seat.{Seat};
ghost use Rattle.bq_c.specs.Address.{owns_seat, maybe_seat_coded};

use crate::seat::Seat;
use std::alloc::Global;
use std::marker::Model;
use std::ptr::null_mut;

/// The address of a boxed seat, which it owns, or of none. C knows no seat, so to it this is the address of a byte.
#[repr(C)]
pub struct Address {
    at: *mut u8,
    ghost seat: { Option Seat } by { maybe_seat_coded },
}

impl Model for Address {
    ghost also_owns = { λ address. owns_seat address.at address.seat };
}

impl Address {
    /// The address of no seat.
    pub fn none() -> Address
        ensures { result.seat ≡ None }
    {
        Address { at: null_mut() }
    }

    /// The address of this seat.
    pub fn of(seat: Box<Seat>) -> Address
        ensures { result.seat ≡ Some seat.value }
    {
        Address {
            at: Box::into_raw(seat) as *mut u8,
        }
    }

    /// The seat that lies there.
    pub fn into_seat(self, alloc: Global) -> Box<Seat>
        requires { IsSome self.seat }
        ensures { self.seat ≡ Some result.value }
    {
        let Address { at } = self;
        unsafe { Box::from_raw(alloc, at as *mut Seat) }
    }
}

// Only the address of none is let go: a seat would be lost with it.
impl Drop for Address {
    fn drop(self)
        requires { self.seat ≡ None }
    {
        let Address { at: _ } = self;
    }
}

// A box of a seat may go to another thread, and so may its address.
unsafe impl Send for Address {}
