//! The three messages of an exchange.

ghost use Rattle.std.specs.Prelude.{◌≡◌, ◌≢◌, ◌⊎◌, ◌<◌, ◌≤◌, [], ℕ, length};
ghost use Rattle.wire_codec.specs.declared.version.Version.TheVariants.{Two};
ghost use Rattle.wire_codec.specs.Answers.{HasFrame};
ghost use Rattle.cot_site.specs.Sites.{state_of};
ghost use Rattle.cot_site.specs.Releases.{IsLater};
ghost use Rattle.peer_exchange.specs.declared.messages.TheConstants.{MAX_MESSAGE};
ghost use Rattle.peer_exchange.specs.declared.messages.Which.TheVariants.{First};
ghost use Rattle.peer_exchange.specs.Messages.{first_message};
ghost use Rattle.peer_exchange.specs.Refusals.{IsUnread};
ghost use Rattle.peer_exchange.specs.Closing.{IsFinished, IsUnclosed, IsUnfinished};
ghost use Rattle.cotpad_c.specs.declared.status.TheConstants.{OK, NO_MEMORY, TOO_LONG};
ghost use Rattle.cotpad_c.specs.Exchanges.{Answers, Closes};
ghost use Rattle.cotpad_c.specs.Hosting.{hosting};
ghost use Rattle.cotpad_c.specs.Refusals.{IsRefused};
ghost use Rattle.cotpad_c.specs.Statuses.{IsMade, Wrote};

use crate::hosted::Hosted;
use crate::reading::hand_out;
use crate::refusals::peer_refused;
use crate::status;
use crate::verdict::CotpadVerdict;
use cot_site::Site;
use peer_exchange::MAX_MESSAGE;
use std::alloc::Global;

/// The first message: what the site has.
pub(crate) fn offer(alloc: Global, site: &Site, out: &mut [u8], needed: &mut usize) -> u32
    ensures wrote { (result ≡ NO_MEMORY) ⊎ Wrote result (first_message site.now.history) out.old out.new needed.new }
    ensures err { result ≡ NO_MEMORY → (out.new ≡ out.old) × (needed.new ≡ needed.old) }
{
    let mut bytes = Vec::new(alloc);
    match peer_exchange::offer(site, &mut bytes) {
        Ok(()) => hand_out(bytes.as_slice(), out, needed),
        Err(_) => status::NO_MEMORY,
    }
}

/// The second message, which answers the first one of a joiner.
pub(crate) fn answer(
    alloc: Global,
    site: &Site,
    first: &[u8],
    out: &mut [u8],
    needed: &mut usize,
    why: &mut CotpadVerdict,
) -> u32
    requires { length first.now ≤ MAX_MESSAGE }
    ensures made { IsMade result → Answers site.now.history first.now result out.old out.new needed.new × (why.new ≡ why.old) }
    ensures refused { ¬ IsMade result → IsRefused (IsUnread First first.now) result why.old why.new }
    ensures err { ¬ IsMade result → (out.new ≡ out.old) × (needed.new ≡ needed.old) }
{
    let mut bytes = Vec::new(alloc);
    match peer_exchange::answer(alloc, site, first, &mut bytes) {
        Ok(_) => hand_out(bytes.as_slice(), out, needed),
        Err(refusal) => peer_refused(refusal, why),
    }
}

/// Takes in the operations of the second message, and hands out the third, which answers it.
pub(crate) fn close(
    alloc: Global,
    hosted: &mut Hosted,
    second: &[u8],
    out: &mut [u8],
    needed: &mut usize,
    why: &mut CotpadVerdict,
) -> u32
    ensures limit { MAX_MESSAGE < length second.now → (result ≡ TOO_LONG) × (why.new ≡ why.old) × (hosted.new ≡ hosting hosted.old.site) }
    ensures made { IsMade result → Closes (state_of hosted.old.site) second.now (state_of hosted.new.site) result out.old out.new needed.new
        × (why.new ≡ why.old) }
    ensures refused { length second.now ≤ MAX_MESSAGE → ¬ IsMade result
        → IsRefused (IsUnclosed (state_of hosted.old.site) second.now (state_of hosted.new.site)) result why.old why.new }
    ensures later { IsLater (state_of hosted.old.site) (state_of hosted.new.site) }
    ensures quiet { hosted.new.released ≡ [] }
    ensures err { ¬ IsMade result → (out.new ≡ out.old) × (needed.new ≡ needed.old) }
{
    hosted.forget();
    if second.len() > MAX_MESSAGE {
        return status::TOO_LONG;
    }
    close_at(alloc, hosted.site_mut(), second, out, needed, why)
}

// The same, at the site itself, of a message that isn't too long.
fn close_at(
    alloc: Global,
    site: &mut Site,
    second: &[u8],
    out: &mut [u8],
    needed: &mut usize,
    why: &mut CotpadVerdict,
) -> u32
    requires { length second.now ≤ MAX_MESSAGE }
    ensures made { IsMade result → Closes (state_of site.old) second.now (state_of site.new) result out.old out.new needed.new
        × (why.new ≡ why.old) }
    ensures refused { ¬ IsMade result → IsRefused (IsUnclosed (state_of site.old) second.now (state_of site.new)) result why.old why.new }
    ensures later { IsLater (state_of site.old) (state_of site.new) }
    ensures err { ¬ IsMade result → (out.new ≡ out.old) × (needed.new ≡ needed.old) }
{
    let mut bytes = Vec::new(alloc);
    match peer_exchange::close(alloc, site, second, &mut bytes) {
        Ok(_) => hand_out(bytes.as_slice(), out, needed),
        Err(refusal) => peer_refused(refusal, why),
    }
}

/// Takes in the operations of the third message.
pub(crate) fn finish(
    alloc: Global,
    hosted: &mut Hosted,
    third: &[u8],
    why: &mut CotpadVerdict,
) -> u32
    ensures limit { MAX_MESSAGE < length third.now → (result ≡ TOO_LONG) × (why.new ≡ why.old) × (hosted.new ≡ hosting hosted.old.site) }
    ensures finished { result ≡ OK → ((count : ℕ) × IsFinished (state_of hosted.old.site) third.now (state_of hosted.new.site) count)
        × (why.new ≡ why.old) }
    ensures refused { length third.now ≤ MAX_MESSAGE → result ≢ OK
        → IsRefused (IsUnfinished (state_of hosted.old.site) third.now (state_of hosted.new.site)) result why.old why.new }
    ensures needed { result ≡ NO_MEMORY → HasFrame Two third.now }
    ensures later { IsLater (state_of hosted.old.site) (state_of hosted.new.site) }
    ensures quiet { hosted.new.released ≡ [] }
{
    hosted.forget();
    if third.len() > MAX_MESSAGE {
        return status::TOO_LONG;
    }
    finish_at(alloc, hosted.site_mut(), third, why)
}

// The same, at the site itself, of a message that isn't too long.
fn finish_at(alloc: Global, site: &mut Site, third: &[u8], why: &mut CotpadVerdict) -> u32
    requires { length third.now ≤ MAX_MESSAGE }
    ensures finished { result ≡ OK → ((count : ℕ) × IsFinished (state_of site.old) third.now (state_of site.new) count)
        × (why.new ≡ why.old) }
    ensures refused { result ≢ OK → IsRefused (IsUnfinished (state_of site.old) third.now (state_of site.new)) result why.old why.new }
    ensures needed { result ≡ NO_MEMORY → HasFrame Two third.now }
    ensures later { IsLater (state_of site.old) (state_of site.new) }
{
    match peer_exchange::finish(alloc, site, third) {
        Ok(_) => status::OK,
        Err(refusal) => peer_refused(refusal, why),
    }
}
