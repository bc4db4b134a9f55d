//! Marks of lists: those of undone names are sums, which are kept up with each change, and those of counts are made at once.

ghost use Rattle.std.specs.Prelude.{◌≡◌, ◌<◌, ◌^◌};
ghost use Rattle.context_vector.specs.Marks.{spread, folded, weight, laid};

use op_name::Name;

/// What the name adds to a mark at the generation: nothing at 0.
pub fn weight(name: &Name, generation: u16) -> u64
    ensures weight { result ≡ weight name.now generation }
    ensures range { result < 2 ^ 33 }
{
    if generation == 0 {
        return 0;
    }
    name.known();
    // Site, number and generation side by side: 20 bits hold a number, 16 a generation.
    let bits = u64::from(name.site) * 68_719_476_736
        + u64::from(name.number) * 65_536
        + u64::from(generation);
    spread(folded(spread(bits))) >> 31
}

/// The mark with a site and its count laid over it.
pub fn laid(mark: u64, site: u16, count: u32) -> u64
    ensures { result ≡ laid mark (site, count) }
{
    spread(folded(mark)).wrapping_add(u64::from(site) * 4_294_967_296 + u64::from(count))
}

// The product with 2^64 over the golden ratio: its high bits depend on all bits of x.
fn spread(x: u64) -> u64
    ensures { result ≡ spread x }
{
    x.wrapping_mul(11_400_714_819_323_198_485)
}

// The high half laid over the low one.
fn folded(x: u64) -> u64
    ensures { result ≡ folded x }
{
    x ^ (x >> 32)
}
