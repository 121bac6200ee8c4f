//! The pointer to what a handle holds.

ghost use Rattle.std.specs.Prelude.{◌≡◌, IfOk, IsSome, None, Option, Some};
ghost use Rattle.dia_c_calls.specs.declared.held.Held.{Held as AnyHeld};
ghost use Rattle.dia_c_calls.specs.Handles.{held_coded, handle_owns};

use crate::handle::parts::Parts;
use crate::held::Held;
use std::alloc::Global;
use std::marker::Model;

/// What a handle holds, by one pointer; or null, and nothing. A drop frees nothing: `into_box` takes out what is freed.
#[repr(C)]
#[derive(Drop)]
pub struct Seal {
    ptr: *mut u8,
    alloc: Global,
    pub ghost held: { Option AnyHeld } by { held_coded },
}

impl Model for Seal {
    ghost also_owns = { λ h. handle_owns h.alloc h.ptr h.held };
}

unsafe impl Send for Seal {}

impl Seal {
    /// Of nothing.
    pub fn empty(alloc: Global) -> Seal
        ensures { result.held ≡ None }
    {
        Seal {
            ptr: std::ptr::null_mut(),
            alloc,
        }
    }

    /// Of what a box holds.
    pub fn of_box(book: Box<Held>) -> Seal
        ensures { result.held ≡ Some book.value }
    {
        Seal::of_parts(Parts::of(book))
    }

    /// The pointer loses its type, which C does not know.
    fn of_parts(parts: Parts<Held, Global>) -> Seal
        ensures { result.held ≡ Some parts.value }
    {
        let Parts { ptr, alloc } = parts;
        Seal {
            ptr: ptr as *mut u8,
            alloc,
        }
    }

    /// The pointer has its type again.
    fn into_parts(self) -> Parts<Held, Global>
        requires { IsSome self.held }
        ensures { self.held ≡ Some result.value }
    {
        let Seal { ptr, alloc } = self;
        Parts {
            ptr: ptr as *mut Held,
            alloc,
        }
    }

    /// The box of what it holds.
    pub fn into_box(self) -> Box<Held>
        requires { IsSome self.held }
        ensures { self.held ≡ Some result.value }
    {
        self.into_parts().into_box()
    }
}
