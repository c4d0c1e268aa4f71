//! The handle that your host keeps of its desk.

ghost use Rattle.std.specs.Prelude.{◌≡◌, Bool, true, false, IfSome, IfNone};
ghost use Rattle.dl_c.specs.declared.kept_desk.KeptDesk.{KeptDesk};
ghost use Rattle.dl_c.specs.Ownership.{desk_at};
ghost use Rattle.dl_c_values.specs.Ownership.{owned_if};

use crate::kept_desk::KeptDesk;
use dl_c_values::box_parts::BoxParts;
use std::alloc::Global;
use std::marker::Model;
use std::{mem, ptr};

/// A place for a desk: a pointer to it, or nothing. A pointer to a desk can't cross to C, since some parts of a desk
/// can't. So this pointer's type says nothing of what is there.
#[repr(C)]
#[derive(Drop)]
pub struct Held {
    at: *mut (),
    alloc: Global,
    pub ghost filled: { Bool },
    pub ghost kept: { KeptDesk },
}

impl Model for Held {
    ghost also_owns = { λ h. owned_if h.filled (desk_at h.alloc h.at h.kept) };
}

// A desk may cross threads, and a pointer alone says nothing of it. So a host may make the calls of a handle from one thread
// after another.
unsafe impl Send for Held {}

impl Held {
    /// A place with no desk.
    fn none(alloc: Global) -> Held
        ensures { result.filled ≡ false }
    {
        Held {
            at: ptr::null_mut(),
            alloc,
        }
    }

    /// A place with the desk of a box.
    fn hold(parts: BoxParts<KeptDesk, Global>) -> Held
        ensures { (result.filled ≡ true) × (result.kept ≡ parts.value) }
    {
        let BoxParts { ptr, alloc } = parts;
        Held {
            at: ptr as *mut (),
            alloc,
        }
    }

    /// The parts of the box of the desk.
    fn release(self) -> BoxParts<KeptDesk, Global>
        requires { self.filled ≡ true }
        ensures { result.value ≡ self.kept }
    {
        let Held { at, alloc } = self;
        BoxParts {
            ptr: at as *mut KeptDesk,
            alloc,
        }
    }
}

/// What your host keeps of its desk (`dl_desk` in C). All zeros is a closed handle. Never copy a handle or write to it.
#[repr(C)]
#[derive(Drop)]
pub struct Handle {
    pub is_open: bool,
    pub held: Held,
    ghost tie: { is_open ≡ held.filled },
}

impl Handle {
    /// A handle with no desk.
    pub fn closed(alloc: Global) -> Handle
        ensures { result.is_open ≡ false }
    {
        Handle {
            is_open: false,
            held: Held::none(alloc),
        }
    }

    /// A handle of the desk.
    pub fn opened(kept: Box<KeptDesk>) -> Handle
        ensures is_open { result.is_open ≡ true }
        ensures kept { result.held.kept ≡ kept.value }
    {
        crossing(Handle {
            is_open: true,
            held: Held::hold(BoxParts::of(kept)),
        })
    }
}

/// A value of a type that may cross threads, as a handle may.
fn crossing<T: Send>(value: T) -> T
    ensures { result ≡ value }
{
    value
}

/// Takes the desk out of a handle and so closes the handle. A closed handle has none, and stays as it is.
pub fn take(alloc: Global, handle: &mut Handle) -> Option<Box<KeptDesk>>
    ensures taken { IfSome result (λ kept. (handle.old.is_open ≡ true) × (kept.value ≡ handle.old.held.kept)) }
    ensures left { IfSome result (λ _. handle.new.is_open ≡ false) }
    ensures none { IfNone result ((handle.old.is_open ≡ false) × (handle.new ≡ handle.old)) }
{
    if !handle.is_open {
        return None;
    }
    let Handle { is_open: _, held } = mem::replace(handle, Handle::closed(alloc));
    Some(held.release().into_box())
}
