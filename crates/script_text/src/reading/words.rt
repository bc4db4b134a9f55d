//! Numbers, sites, names and members that stand alone, spelled as in lines.

ghost use Rattle.std.specs.Prelude.{◌≡◌, ◌<◌, ◌^◌, ℕ, Some, IfSome, decimal};
ghost use Rattle.op_name.specs.NameData.{NameData};
ghost use Rattle.op_name.specs.declared.name.TheConstants.{SITES};
ghost use Rattle.op_name.specs.declared.member.Member as declared;
ghost use Rattle.script_text.specs.Fields.{number_of, long_of, site_of, name_of, member_of, IsNumber, IsLong, IsSite, IsNameText, IsMemberText};

use crate::reading::field::{long, member, name, number, site};
use op_name::{Member, Name};

/// The number that the text spells: `0`, or decimal digits that don't start with 0, below 2^32. None exactly where it
/// spells none.
#[tactic(auto, using(crate::proofs::WordLaws::number_found, crate::proofs::WordLaws::number_only))]
pub fn parse_number(text: &str) -> Option<u32>
    ensures read { result ≡ number_of text.now }
    ensures found { IfSome result (λ n. IsNumber text.now n) }
    ensures only { (n : ℕ) → IsNumber text.now n → result ≡ Some n }
{
    number(text)
}

/// The same for a number below 2^64.
#[tactic(auto, using(crate::proofs::WordLaws::long_found, crate::proofs::WordLaws::long_only))]
pub fn parse_long(text: &str) -> Option<u64>
    ensures read { result ≡ long_of text.now }
    ensures found { IfSome result (λ n. IsLong text.now n) }
    ensures only { (n : ℕ) → IsLong text.now n → result ≡ Some n }
{
    long(text)
}

/// The number of a site that the text spells, below `SITES`. None exactly where it spells none.
#[tactic(auto, using(crate::proofs::WordLaws::site_found, crate::proofs::WordLaws::site_only))]
pub fn parse_site(text: &str) -> Option<u16>
    ensures read { result ≡ site_of text.now }
    ensures small { IfSome result (λ n. n < SITES) }
    ensures found { IfSome result (λ n. IsSite text.now n) }
    ensures only { (n : ℕ) → IsSite text.now n → result ≡ Some n }
{
    site(text)
}

/// The name that the text spells: a site, a point and a number from 1 to `NUMBERS`. None exactly where it spells none.
#[tactic(auto, using(crate::proofs::WordLaws::name_found, crate::proofs::WordLaws::name_only))]
pub fn parse_name(text: &str) -> Option<Name>
    ensures read { result ≡ name_of text.now }
    ensures found { IfSome result (λ n. IsNameText text.now n) }
    ensures only { (n : NameData) → IsNameText text.now n → result ≡ Some n }
{
    name(text)
}

/// The member that the text spells: its name for an original; for a group the name of its original, a slash and a
/// generation from 1 to `GENERATIONS`. None exactly where it spells none.
#[tactic(auto, using(crate::proofs::MemberLaws::member_found, crate::proofs::MemberLaws::member_only))]
pub fn parse_member(text: &str) -> Option<Member>
    ensures read { result ≡ member_of text.now }
    ensures found { IfSome result (λ m. IsMemberText text.now m) }
    ensures only { (m : declared.Member) → IsMemberText text.now m → result ≡ Some m }
{
    member(text)
}
