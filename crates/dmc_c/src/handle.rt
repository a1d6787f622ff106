//! The pointer that C holds.
ghost use Rattle.std.specs.Prelude.{◌≡◌, Option, None, Some, OnOk, OnErr, IsOkUnless, option_map};
ghost use Rattle.dmc_c.specs.Calls.{vacancy};
ghost use Rattle.dmc_c.specs.declared.fault.Fault.TheVariants as faults;
ghost use Rattle.dmc_c.specs.declared.kept.Kept.{Kept};

use crate::fault::Fault;
use crate::kept::Kept;
use crate::loose::Loose;
use std::alloc::Global;
use std::marker::Model;
use std::mem::replace;
use std::ptr::null_mut;

/// The header's `struct dmc_queue`, `struct dmc_tracker` and `struct dmc_shards`: a pointer to what is held, and 1; or 0 if nothing is held.
/// Contracts see what is held.
#[repr(C)]
pub struct Handle {
    at: *mut u8,
    held: u64,
    pub ghost value: { Option Kept },
}

impl Model for Handle {
    ghost use Rattle.dmc_c.specs.Ownership.{handle_owns};

    ghost also_owns = { λ h. handle_owns h.held h.at h.value };
}

// What it holds may move to another thread, and so may it.
unsafe impl Send for Handle {}

impl Handle {
    /// The header's `DMC_QUEUE_NONE`, `DMC_TRACKER_NONE` and `DMC_SHARDS_NONE`.
    pub fn none() -> Handle
        ensures { result.value ≡ None }
    {
        Handle {
            at: null_mut(),
            held: 0,
        }
    }

    /// It owns what the pointer owned.
    fn of(loose: Loose<Kept, Global>) -> Handle
        ensures { result.value ≡ Some loose.value }
    {
        let Loose { at, alloc: _ } = loose;
        Handle {
            at: at as *mut u8,
            held: 1,
        }
    }

    /// Ends what it holds.
    pub fn end(self, alloc: Global) {
        if let Some(loose) = self.into_loose(alloc) {
            drop(loose.into_box());
        }
    }

    /// The pointer owns what it owned.
    fn into_loose(self, alloc: Global) -> Option<Loose<Kept, Global>>
        ensures { option_map (λ l. l.value) result ≡ self.value }
    {
        let Handle { at, held } = self;
        if held == 0 {
            None
        } else {
            Some(Loose {
                at: at as *mut Kept,
                alloc,
            })
        }
    }
}

/// Takes out what is held.
pub fn take(handle: &mut Handle, alloc: Global) -> Option<Box<Kept>>
    ensures value { option_map (λ b. b.value) result ≡ handle.old.value }
    ensures none { handle.new.value ≡ None }
{
    match replace(handle, Handle::none()).into_loose(alloc) {
        None => None,
        Some(loose) => Some(loose.into_box()),
    }
}

/// Puts something in; what was held ends.
pub fn put(handle: &mut Handle, held: Box<Kept>, alloc: Global)
    ensures { handle.new.value ≡ Some held.value }
{
    replace(handle, Handle::of(Loose::of(held))).end(alloc);
}

/// Whether nothing is held; refused `Held`.
pub fn check_vacant(handle: &mut Handle, alloc: Global) -> Result<(), Fault>
    ensures value { result ≡ vacancy handle.old.value }
    ensures same { handle.new.value ≡ handle.old.value }
{
    let Some(held) = take(handle, alloc) else {
        return Ok(());
    };
    put(handle, held, alloc);
    Err(Fault::Held)
}

/// Puts something in a box of its own in; refused `Memory`.
pub fn fill(handle: &mut Handle, kept: Kept, alloc: Global) -> Result<(), Fault>
    ensures ok { OnOk result (handle.new.value ≡ Some kept) }
    ensures err { OnErr result (handle.new.value ≡ handle.old.value) }
    ensures memory { IsOkUnless result faults.Memory }
{
    let held = Box::new(alloc, kept)?;
    put(handle, held, alloc);
    Ok(())
}
