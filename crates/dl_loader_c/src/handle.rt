//! The handle that your host keeps of its loader.

ghost use Rattle.std.specs.Prelude.{◌≡◌, Bool, true, false, IfNone, IfSome};
ghost use Rattle.dl_loader_c.specs.Contents.{Contents, contents_code};
ghost use Rattle.dl_loader_c.specs.Named.{Named, IsHosted, named_by, named_code};
ghost use Rattle.dl_loader_c.specs.Ownership.{kept_at, brand};
ghost use Rattle.dl_c_values.specs.Ownership.{owned_if};

use crate::kept::Kept;
use dl_c_values::box_parts::BoxParts;
use dl_loader::LoaderName;
use std::alloc::Global;
use std::marker::{Brand, Model};
use std::{mem, ptr};

/// A box of what you keep of a loader, as its pointer. `T` stands for the loader, whose members are those of its name. So
/// a function over `L: LoaderName` can hand it to one that knows nothing of these.
pub struct HeldOf<T> {
    at: *mut T,
    alloc: Global,
    pub ghost name: { Named } by { named_code },
    pub ghost kept: { Contents } by { contents_code },
}

impl<T> Model for HeldOf<T> {
    ghost also_owns = { λ h. kept_at T.row h.alloc h.at h.name h.kept };
}

impl<L: LoaderName> HeldOf<L> {
    /// What a box has.
    pub fn hold(parts: BoxParts<Kept<L>, Global>) -> HeldOf<L>
        requires { IsHosted L.service L.parts }
        ensures { (result.name ≡ named_by L.cells L.service L.name) × (result.kept ≡ parts.value) }
    {
        let BoxParts { ptr, alloc } = parts;
        HeldOf {
            at: ptr as *mut L,
            alloc,
        }
    }

    /// The parts of the box.
    pub fn release(self) -> BoxParts<Kept<L>, Global>
        requires { IsHosted L.service L.parts × (self.name ≡ named_by L.cells L.service L.name) }
        ensures { result.value ≡ self.kept }
    {
        let HeldOf { at, alloc } = self;
        BoxParts {
            ptr: at as *mut Kept<L>,
            alloc,
        }
    }
}

/// The same for C, or nothing. A pointer to a loader can't cross to C, since some parts of a loader can't. So this
/// pointer's type says nothing of what is there.
#[repr(C)]
#[derive(Drop)]
pub struct Held {
    at: *mut (),
    alloc: Global,
    pub ghost filled: { Bool },
    pub ghost name: { Named } by { named_code },
    pub ghost kept: { Contents } by { contents_code },
}

impl Model for Held {
    ghost also_owns = { λ h. owned_if h.filled (kept_at brand h.alloc h.at h.name h.kept) };
}

// What is kept may cross threads, and a pointer alone says nothing of it. So a host may make the calls of a handle from one thread
// after another.
unsafe impl Send for Held {}

impl Held {
    /// A place with nothing.
    fn none(alloc: Global) -> Held
        ensures { result.filled ≡ false }
    {
        Held {
            at: ptr::null_mut(),
            alloc,
        }
    }

    /// A place with what is kept.
    fn pack(held: HeldOf<Brand>) -> Held
        ensures { (result.filled ≡ true) × ((result.name ≡ held.name) × (result.kept ≡ held.kept)) }
    {
        let HeldOf { at, alloc } = held;
        Held {
            at: at as *mut (),
            alloc,
        }
    }

    /// What is kept.
    fn unpack(self) -> HeldOf<Brand>
        requires { self.filled ≡ true }
        ensures { (result.name ≡ self.name) × (result.kept ≡ self.kept) }
    {
        let Held { at, alloc } = self;
        HeldOf {
            at: at as *mut Brand,
            alloc,
        }
    }
}

/// What your host keeps of its loader (`dl_serial` in C). All zeros is a closed handle. Never copy a handle or write to
/// it.
#[repr(C)]
#[derive(Drop)]
pub struct Handle {
    pub is_open: bool,
    pub held: Held,
    ghost tie: { is_open ≡ held.filled },
}

impl Handle {
    /// A handle with nothing.
    pub fn closed(alloc: Global) -> Handle
        ensures { result.is_open ≡ false }
    {
        crossing(Handle {
            is_open: false,
            held: Held::none(alloc),
        })
    }

    /// Has the handle keep this.
    // By its fields: a new handle would be copied with the bytes between them.
    pub fn open(&mut self, held: HeldOf<Brand>)
        ensures is_open { self.new.is_open ≡ true }
        ensures name { self.new.held.name ≡ held.name }
        ensures kept { self.new.held.kept ≡ held.kept }
    {
        self.held = Held::pack(held);
        self.is_open = true;
    }
}

/// A value of a type that may cross threads, as a handle may.
fn crossing<T: Send>(value: T) -> T
    ensures { result ≡ value }
{
    value
}

/// Takes what a handle keeps, and so closes the handle. A closed handle keeps nothing, and stays as it is.
pub fn take(alloc: Global, handle: &mut Handle) -> Option<HeldOf<Brand>>
    ensures taken { IfSome result (λ held. (handle.old.is_open ≡ true) × ((held.name ≡ handle.old.held.name) × (held.kept ≡ handle.old.held.kept))) }
    ensures left { IfSome result (λ _. handle.new.is_open ≡ false) }
    ensures none { IfNone result ((handle.old.is_open ≡ false) × (handle.new ≡ handle.old)) }
{
    if !handle.is_open {
        return None;
    }
    let Handle { is_open: _, held } = mem::replace(handle, Handle::closed(alloc));
    Some(held.unpack())
}
