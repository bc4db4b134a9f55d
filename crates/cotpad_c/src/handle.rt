//! Handles: what a host keeps of a site.

ghost use Rattle.std.specs.Prelude.{◌≡◌, Option, Some, None, IsSome};
ghost use Rattle.cotpad_c.specs.Hosting.{HostedData};
ghost use Rattle.cotpad_c.specs.Handles.{site_coded};

use crate::hosted::Hosted;
use crate::parts::Parts;
use std::alloc::Global;
use std::marker::Model;
use std::ptr::null_mut;

/// Nothing, or a site on the heap, which the handle owns.
///
/// It isn't `Drop`: it goes by `emptied` or `let_go`, so that no site is forgotten.
#[repr(C)]
pub struct CotpadSite {
    pub(crate) at: *mut u8,
    alloc: Global,
    pub ghost site: { Option HostedData } by { site_coded },
}

impl Model for CotpadSite {
    ghost use Rattle.cotpad_c.specs.Handles.{handle_owns};

    ghost also_owns = { λ h. handle_owns h.alloc h.at h.site };
}

impl CotpadSite {
    /// The handle of the site.
    pub(crate) fn filled(parts: Parts<Hosted, Global>) -> CotpadSite
        ensures { result.site ≡ Some parts.value }
    {
        let Parts { ptr, alloc } = parts;
        CotpadSite {
            at: ptr as *mut u8,
            alloc,
        }
    }

    /// Takes the site out of the handle.
    pub(crate) fn emptied(self) -> Parts<Hosted, Global>
        requires { IsSome self.site }
        ensures { self.site ≡ Some result.value }
    {
        let CotpadSite { at, alloc } = self;
        Parts {
            ptr: at as *mut Hosted,
            alloc,
        }
    }

    /// A handle of nothing.
    pub(crate) fn empty(alloc: Global) -> CotpadSite
        ensures { result.site ≡ None }
    {
        CotpadSite {
            at: null_mut(),
            alloc,
        }
    }

    /// Lets a handle of nothing go.
    pub(crate) fn let_go(self)
        requires { self.site ≡ None }
    {
        let CotpadSite { at: _, alloc: _ } = self;
    }
}
