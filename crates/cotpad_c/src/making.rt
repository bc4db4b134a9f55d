//! Sites on the heap.

ghost use Rattle.std.specs.Prelude.{◌≡◌, ◌<◌, ◌≤◌, [], IfOk, IfErr, length};
ghost use Rattle.op_name.specs.declared.name.TheConstants.{SITES};
ghost use Rattle.cot_site.specs.Sites.{state_of};
ghost use Rattle.session_log.specs.declared.reading.TheConstants.{MAX_LOG};
ghost use Rattle.session_log.specs.Loadings.{IsLoaded, IsUnloaded};
ghost use Rattle.cotpad_c.specs.Held.{fresh};
ghost use Rattle.cotpad_c.specs.Hosting.{hosting};

use crate::hosted::Hosted;
use crate::parts::Parts;
use cot_site::Site;
use op_name::Memory;
use session_log::LogBad;
use std::alloc::Global;

/// The site of this number that has done nothing.
pub(crate) fn make(alloc: Global, number: u16) -> Result<Parts<Hosted, Global>, Memory>
    requires { number < SITES }
    ensures { IfOk result (λ p. p.value ≡ hosting (fresh number)) }
{
    match Site::new(alloc, number) {
        Ok(site) => boxed(alloc, site),
        Err(_) => Err(Memory),
    }
}

/// The site of this number that a log makes.
pub(crate) fn load(
    alloc: Global,
    number: u16,
    bytes: &[u8],
) -> Result<Parts<Hosted, Global>, LogBad>
    requires site { number < SITES }
    requires limit { length bytes.now ≤ MAX_LOG }
    ensures loaded { IfOk result (λ p. IsLoaded number bytes.now (state_of p.value.site)) }
    ensures quiet { IfOk result (λ p. p.value.released ≡ []) }
    ensures refused { IfErr result (IsUnloaded number bytes.now) }
{
    match session_log::load(alloc, number, bytes) {
        Ok(site) => match boxed(alloc, site) {
            Ok(parts) => Ok(parts),
            Err(_) => Err(LogBad::Memory),
        },
        Err(why) => Err(why),
    }
}

// The site on the heap, with nothing released.
fn boxed(alloc: Global, site: Site) -> Result<Parts<Hosted, Global>, Memory>
    ensures { IfOk result (λ p. p.value ≡ hosting site) }
{
    let Ok(hosted) = Box::new(alloc, Hosted::new(alloc, site)) else {
        return Err(Memory);
    };
    Ok(Parts::of(hosted))
}
