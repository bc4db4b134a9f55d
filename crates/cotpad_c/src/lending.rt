//! The site that a handle holds.

ghost use Rattle.std.specs.Prelude.{◌≡◌, Some, IsSome};
ghost use Rattle.cotpad_c.specs.Lending.{LendsHosted};
ghost use types.Logic.{sem};

use crate::handle::CotpadSite;
use crate::hosted::Hosted;

impl CotpadSite {
    /// Lends the site; the handle ends with what becomes of it.
    pub(crate) fn inner(&mut self) -> &mut Hosted
        requires { IsSome self.old.site }
        ensures* writes_back { sem 𝓛 (LendsHosted self.entry result) }
        ensures value { self.old.site ≡ Some result.now }
    {
        unsafe { &mut *(self.at as *mut Hosted) }
    }
}
