//! Fields: what stands between the blanks of a line.

ghost use Rattle.std.specs.Prelude.{◌≡◌, Some, None, MatchOption, IfSome, chars, ◌<◌, ◌≤◌};
ghost use Rattle.script_text.specs.Fields.{cut, number_of, long_of, site_of, count_of, name_of, generation_of, member_of, text_of, starts_numeral};

use op_name::{GENERATIONS, Member, Name, SITES};

/// What stands before the first blank and after it.
pub(crate) fn cut_at_blank(text: &str) -> Option<(&str, &str)>
    ensures { MatchOption result (cut 32 text.now ≡ None) (λ p. cut 32 text.now ≡ Some (p.0.now, p.1.now)) }
{
    text.split_once(' ')
}

/// The number that the field spells: `0`, or decimal digits that don't start with 0, below 2^32.
#[tactic(auto, using(crate::proofs::FieldLaws::number_parsed, crate::proofs::FieldLaws::number_no))]
pub(crate) fn number(field: &str) -> Option<u32>
    ensures { result ≡ number_of field.now }
{
    if !starts_numeral(field.as_bytes()) {
        return None;
    }
    field.parse::<u32>().ok()
}

/// The same for a number below 2^64.
#[tactic(auto, using(crate::proofs::WordLaws::long_parsed, crate::proofs::WordLaws::long_no))]
pub(crate) fn long(field: &str) -> Option<u64>
    ensures { result ≡ long_of field.now }
{
    if starts_numeral(field.as_bytes()) {
        field.parse::<u64>().ok()
    } else {
        None
    }
}

/// `0` alone, or a digit that isn't 0 comes first.
fn starts_numeral(digits: &[u8]) -> bool
    ensures { result ≡ starts_numeral digits.now }
{
    matches!(digits, [b'0'] | [b'1'..=b'9', ..])
}

/// The site that the field spells, below `SITES`.
#[tactic(auto, unfolding(crate::specs::Fields::site_of))]
pub(crate) fn site(field: &str) -> Option<u16>
    ensures read { result ≡ site_of field.now }
    ensures small { IfSome result (λ n. n < SITES) }
{
    let site = number(field)?;
    if site < u32::from(SITES) {
        Some(site as u16)
    } else {
        None
    }
}

/// The number of sites that the field spells: 1 to `SITES`.
#[tactic(auto, unfolding(crate::specs::Fields::count_of))]
pub(crate) fn count(field: &str) -> Option<u16>
    ensures { result ≡ count_of field.now }
{
    let count = number(field)?;
    if 1 <= count && count <= u32::from(SITES) {
        Some(count as u16)
    } else {
        None
    }
}

/// The name that the field spells: a site, a point and a number from 1 to `NUMBERS`.
#[tactic(auto, unfolding(crate::specs::Fields::name_of))]
pub(crate) fn name(field: &str) -> Option<Name>
    ensures { result ≡ name_of field.now }
{
    let (first, second) = cut_at_point(field)?;
    let site = site(first)?;
    let number = number(second)?;
    Name::new(site, number).ok()
}

/// What stands before the first point and after it.
fn cut_at_point(text: &str) -> Option<(&str, &str)>
    ensures { MatchOption result (cut 46 text.now ≡ None) (λ p. cut 46 text.now ≡ Some (p.0.now, p.1.now)) }
{
    text.split_once('.')
}

/// The generation that the field spells: 1 to `GENERATIONS`.
#[tactic(auto, unfolding(crate::specs::Fields::generation_of))]
pub(crate) fn generation(field: &str) -> Option<u16>
    ensures read { result ≡ generation_of field.now }
    ensures least { IfSome result (λ g. 1 ≤ g) }
{
    let generation = number(field)?;
    if 1 <= generation && generation <= u32::from(GENERATIONS) {
        Some(generation as u16)
    } else {
        None
    }
}

/// The member that the field spells: a name, which a slash and a generation follow for a group.
#[tactic(auto, unfolding(crate::specs::Fields::member_of))]
pub(crate) fn member(field: &str) -> Option<Member>
    ensures { result ≡ member_of field.now }
{
    match cut_at_slash(field) {
        None => Some(Member::Original(name(field)?)),
        Some((first, second)) => {
            let name = name(first)?;
            let generation = generation(second)?;
            Some(Member::Group(name, generation))
        }
    }
}

/// What stands before the first slash and after it.
pub(crate) fn cut_at_slash(text: &str) -> Option<(&str, &str)>
    ensures { MatchOption result (cut 47 text.now ≡ None) (λ p. cut 47 text.now ≡ Some (p.0.now, p.1.now)) }
{
    text.split_once('/')
}

/// The field as the text of a line, which has one character at least.
pub(crate) fn characters(field: &str) -> Option<&str>
    ensures { MatchOption result (text_of field.now ≡ None) (λ t. text_of field.now ≡ Some (chars t.now)) }
{
    if field.is_empty() { None } else { Some(field) }
}
