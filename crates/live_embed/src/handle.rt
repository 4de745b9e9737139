//! What C holds of a host.

ghost use Rattle.std.specs.Prelude.{◌≡◌, None, Option, Some, length, option_map};
ghost use Rattle.live_embed.specs.declared.embedded.Embedded.{Embedded};
ghost use Rattle.live_embed.specs.Embedding.{HasLine, HasMade, filled, last_block};
ghost use Rattle.live_embed.specs.Owned.{handle_owns, kept_coded};

use crate::embedded::Embedded;
use crate::parts::Parts;
use crate::status::Status;
use std::alloc::Global;
use std::marker::Model;
use std::mem::replace;
use std::ptr::null_mut;

/// A host, or none: then the pointer is null. What lies behind it is seen as the ghost field. The pointer's own type
/// does not say it, since C may not see a type whose values are shared.
#[repr(C)]
pub struct ScpHost {
    at: *mut u8,
    alloc: Global,
    pub ghost kept: { Option Embedded } by { kept_coded },
}

impl Model for ScpHost {
    ghost also_owns = { λ h. handle_owns h.alloc h.at h.kept };
}

impl Drop for ScpHost {
    fn drop(self) {
        match self.into_box() {
            Some(kept) => drop(kept),
            None => {}
        }
    }
}

impl ScpHost {
    /// A new host in place of what was held. If it is out of memory, what was held stays.
    pub(crate) fn make(&mut self, alloc: Global, bytes: bool) -> Status
        ensures { HasMade result bytes self.old.kept self.new.kept }
    {
        match Box::new(alloc, Embedded::new(alloc, bytes)) {
            Ok(made) => {
                *self = ScpHost::of(made);
                Status::Done
            }
            // Memory: there is none for the box.
            Err(_) => Status::NoMemory,
        }
    }

    /// Has the host answer its next line. If it is out of memory the host is let go.
    pub(crate) fn line(&mut self, alloc: Global, line: &[u8]) -> Status
        ensures { HasLine result line.now self.old.kept self.new.kept }
    {
        let Some(mut kept) = self.take(alloc) else {
            return Status::NoHost;
        };
        let status = kept.line(alloc, line);
        match status {
            Status::NoMemory => drop(kept),
            _ => *self = ScpHost::of(kept),
        }
        status
    }

    /// How long the block of the last line is, and that block, if it fits.
    pub(crate) fn block(&mut self, alloc: Global, room: &mut [u8]) -> usize
        ensures length { result ≡ length (last_block self.old.kept) }
        ensures room { room.new ≡ filled (last_block self.old.kept) room.old }
        ensures host { self.new.kept ≡ self.old.kept }
    {
        let Some(kept) = self.take(alloc) else {
            return 0;
        };
        let length = kept.block(room);
        *self = ScpHost::of(kept);
        length
    }

    /// Lets the host go.
    pub(crate) fn free(&mut self, alloc: Global)
        ensures { self.new.kept ≡ None }
    {
        drop(self.take(alloc));
    }

    /// What is held, which is not held any more.
    fn take(&mut self, alloc: Global) -> Option<Box<Embedded>>
        ensures taken { option_map (λ b. b.value) result ≡ self.old.kept }
        ensures none { self.new.kept ≡ None }
    {
        replace(self, ScpHost::none(alloc)).into_box()
    }

    fn none(alloc: Global) -> ScpHost
        ensures { result.kept ≡ None }
    {
        ScpHost {
            at: null_mut(),
            alloc,
        }
    }

    fn of(kept: Box<Embedded>) -> ScpHost
        ensures { result.kept ≡ Some kept.value }
    {
        ScpHost::of_parts(Parts::of(kept))
    }

    fn of_parts(parts: Parts<Embedded, Global>) -> ScpHost
        ensures { result.kept ≡ Some parts.value }
    {
        let Parts { ptr, alloc } = parts;
        ScpHost {
            at: ptr as *mut u8,
            alloc,
        }
    }

    fn into_box(self) -> Option<Box<Embedded>>
        ensures { option_map (λ b. b.value) result ≡ self.kept }
    {
        match self.into_parts() {
            Some(parts) => Some(parts.into_box()),
            None => None,
        }
    }

    fn into_parts(self) -> Option<Parts<Embedded, Global>>
        ensures { option_map (λ p. p.value) result ≡ self.kept }
    {
        let ScpHost { at, alloc } = self;
        if at.is_null() {
            None
        } else {
            Some(Parts {
                ptr: at as *mut Embedded,
                alloc,
            })
        }
    }
}
