//! Calls of sets of members. The set is that of the letter with which the line begins.

ghost use Rattle.std.specs.Prelude.{◌≤◌, IsTrue};
ghost use Rattle.context_vector.specs.Contexts.{IsNextMember};
ghost use Rattle.context_vector.specs.Vectors.{IsLastMember};

use crate::answers::{
    put_any_member, put_found, put_further, put_none, put_number, put_set, put_truth, put_turn,
};
use crate::registers::Sets;
use crate::words::Words;
use context_vector::{AddBad, Vector};
use op_name::{Member, Memory, Name};
use std::alloc::Global;
use std::hash::{DefaultHasher, Hash, Hasher};
use std::mem;
use undo_group::{generation, in_force, next_generation};

pub(crate) fn call_set(
    alloc: Global,
    letter: &str,
    words: &mut Words<'_>,
    sets: &mut Sets,
    out: &mut String,
) -> Result<bool, Memory> {
    match words.word() {
        "copy" => copy(letter, words.word(), sets),
        "kept" => kept(letter, words.word(), sets),
        "join" => join(alloc, letter, words.word(), sets),
        "sharewith" => share_with(alloc, letter, words.word(), sets),
        "remember" => remember(alloc, letter, words.word(), sets),
        "list" => list(alloc, letter, words, sets),
        "covers" => covers(letter, words.word(), sets, out),
        "missing" => missing(letter, words.word(), sets, out),
        "equals" => equals(letter, words.word(), sets, out),
        "undoes" => undoes(letter, words.word(), sets, out),
        call => match sets.get_mut(letter) {
            Some(set) => call_one(call, set, words, out),
            None => Ok(false),
        },
    }
}

// `copy LETTER`: the set becomes a copy of that one.
fn copy(to: &str, from: &str, sets: &mut Sets) -> Result<bool, Memory> {
    let Some(other) = sets.get(from) else {
        return Ok(false);
    };
    let copy = other.try_clone()?;
    match sets.get_mut(to) {
        Some(set) => {
            *set = copy;
            Ok(true)
        }
        None => Ok(false),
    }
}

// `kept LETTER`: the set becomes a copy of that one, in lists that copies share.
fn kept(to: &str, from: &str, sets: &mut Sets) -> Result<bool, Memory> {
    let Some(other) = sets.get(from) else {
        return Ok(false);
    };
    let copy = other.kept()?;
    put_back(to, sets, copy);
    Ok(true)
}

// Takes the set of a letter out; an empty one stands there until it is put back.
fn take_out(alloc: Global, letter: &str, sets: &mut Sets) -> Vector {
    match sets.get_mut(letter) {
        Some(set) => mem::replace(set, Vector::new(alloc)),
        None => Vector::new(alloc),
    }
}

fn put_back(letter: &str, sets: &mut Sets, set: Vector) {
    if let Some(slot) = sets.get_mut(letter) {
        *slot = set;
    }
}

// `join LETTER`: the members of that set come in.
fn join(alloc: Global, to: &str, from: &str, sets: &mut Sets) -> Result<bool, Memory> {
    let mut set = take_out(alloc, to, sets);
    let done = join_one(&mut set, from, sets);
    put_back(to, sets, set);
    done
}

fn join_one(set: &mut Vector, from: &str, sets: &Sets) -> Result<bool, Memory> {
    let Some(other) = sets.get(from) else {
        return Ok(false);
    };
    set.join(other)?;
    Ok(true)
}

// `sharewith LETTER`: copies share the lists, and what they have in common with copies of the other set is kept once.
fn share_with(alloc: Global, to: &str, from: &str, sets: &mut Sets) -> Result<bool, Memory> {
    let mut set = take_out(alloc, to, sets);
    let done = share_one(&mut set, from, sets);
    put_back(to, sets, set);
    Ok(done)
}

fn share_one(set: &mut Vector, from: &str, sets: &Sets) -> bool {
    match sets.get(from) {
        Some(other) => {
            set.share_with(other);
            true
        }
        None => false,
    }
}

// `remember LETTER`: the next copies of the set are made like the lists of the other one.
fn remember(alloc: Global, to: &str, from: &str, sets: &mut Sets) -> Result<bool, Memory> {
    let mut set = take_out(alloc, to, sets);
    let done = remember_one(&mut set, from, sets);
    put_back(to, sets, set);
    Ok(done)
}

fn remember_one(set: &mut Vector, from: &str, sets: &Sets) -> bool {
    match sets.get(from) {
        Some(other) => {
            set.remember(other);
            true
        }
        None => false,
    }
}

// `list NAME NAME/GENERATION`: the set is read from a listing of the one name's site and number, and of a group.
fn list(
    alloc: Global,
    letter: &str,
    words: &mut Words<'_>,
    sets: &mut Sets,
) -> Result<bool, Memory> {
    let Some(last) = words.name() else {
        return Ok(false);
    };
    let Some(turn) = words.turn() else {
        return Ok(false);
    };
    if turn.1 == 0 {
        return Ok(false);
    }
    let set = listed(alloc, last, turn.0, turn.1)?;
    put_back(letter, sets, set);
    Ok(true)
}

fn listed(alloc: Global, last: Name, name: Name, generation: u16) -> Result<Vector, Memory>
    requires { 1 ≤ generation }
{
    last.known();
    let mut set = Vector::new(alloc);
    set.push_count(last.site, last.number)?;
    set.push_entry(name, generation)?;
    Ok(set)
}

// `covers LETTER`
fn covers(letter: &str, other: &str, sets: &Sets, out: &mut String) -> Result<bool, Memory> {
    match (sets.get(letter), sets.get(other)) {
        (Some(set), Some(other)) => {
            put_truth(out, set.covers(other))?;
            Ok(true)
        }
        _ => Ok(false),
    }
}

// `missing LETTER`: the first member of that set that this one lacks.
fn missing(letter: &str, other: &str, sets: &Sets, out: &mut String) -> Result<bool, Memory> {
    match (sets.get(letter), sets.get(other)) {
        (Some(set), Some(other)) => {
            put_any_member(out, &set.first_missing(other))?;
            Ok(true)
        }
        _ => Ok(false),
    }
}

// `equals LETTER`: whether they are equal, whether their hashes are, and whether their counts are.
fn equals(letter: &str, other: &str, sets: &Sets, out: &mut String) -> Result<bool, Memory> {
    match (sets.get(letter), sets.get(other)) {
        (Some(set), Some(other)) => {
            put_truth(out, *set == *other)?;
            out.push(' ')?;
            put_truth(out, hash_of(set) == hash_of(other))?;
            out.push(' ')?;
            put_truth(out, set.listed()?.as_slice() == other.listed()?.as_slice())?;
            Ok(true)
        }
        _ => Ok(false),
    }
}

// `undoes LETTER`: whether both have the same undone names at the same generations.
fn undoes(letter: &str, other: &str, sets: &Sets, out: &mut String) -> Result<bool, Memory> {
    match (sets.get(letter), sets.get(other)) {
        (Some(set), Some(other)) => {
            put_truth(out, set.undoes_same(other))?;
            Ok(true)
        }
        _ => Ok(false),
    }
}

fn hash_of(set: &Vector) -> u64 {
    let mut state = DefaultHasher::new();
    set.hash(&mut state);
    state.finish()
}

fn call_one(
    call: &str,
    set: &mut Vector,
    words: &mut Words<'_>,
    out: &mut String,
) -> Result<bool, Memory> {
    match call {
        "raise" => raise(set, words),
        "add" => add(set, words, out),
        "reserve" => reserve(set, words),
        "put" => put(set, words, out),
        "drop" => drop_last(set, words, out),
        "through" => through(set, words, out),
        "share" => {
            set.share();
            Ok(true)
        }
        _ => call_reading(call, set, words, out),
    }
}

// `raise MEMBER`: it comes in with all below it.
fn raise(set: &mut Vector, words: &mut Words<'_>) -> Result<bool, Memory> {
    let Some(member) = words.member() else {
        return Ok(false);
    };
    set.raise(&member)?;
    Ok(true)
}

// `add MEMBER`: it comes in where it is next.
fn add(set: &mut Vector, words: &mut Words<'_>, out: &mut String) -> Result<bool, Memory> {
    let Some(member) = words.member() else {
        return Ok(false);
    };
    match set.add(&member) {
        Ok(()) => Ok(true),
        Err(AddBad::NotNext { expected }) => put_not_next(out, expected),
        Err(AddBad::Memory) => Err(Memory),
    }
}

fn put_not_next(out: &mut String, expected: u32) -> Result<bool, Memory> {
    out.push_str("not next")?;
    put_further(out, u64::from(expected))?;
    Ok(true)
}

// `reserve MEMBER`: room for it is made.
fn reserve(set: &mut Vector, words: &mut Words<'_>) -> Result<bool, Memory> {
    let Some(member) = words.member() else {
        return Ok(false);
    };
    set.reserve(&member)?;
    Ok(true)
}

// The last member of the member's site or name: its number or generation there, 0 for none.
fn last_of(set: &Vector, member: &Member) -> u32 {
    match member {
        Member::Original(name) => set.count(name.site),
        Member::Group(name, _) => u32::from(set.entry(name)),
    }
}

// Whether the member is the next of its site or its name.
fn is_next(set: &Vector, member: &Member) -> bool
    ensures { IsTrue result → IsNextMember set.now.set member.now }
{
    match member {
        Member::Original(name) => u64::from(set.count(name.site)) + 1 == u64::from(name.number),
        Member::Group(name, generation) => u32::from(set.entry(name)) + 1 == u32::from(*generation),
    }
}

// Whether the member is the last of its site or its name.
fn is_last(set: &Vector, member: &Member) -> bool
    ensures { IsTrue result → IsLastMember set.now.set member.now }
{
    match member {
        Member::Original(name) => set.count(name.site) == name.number,
        Member::Group(name, generation) => set.entry(name) == *generation,
    }
}

// `put MEMBER`: room is made, and the member, which has to be next, comes into that room.
fn put(set: &mut Vector, words: &mut Words<'_>, out: &mut String) -> Result<bool, Memory> {
    let Some(member) = words.member() else {
        return Ok(false);
    };
    if !is_next(set, &member) {
        return put_not_next(out, last_of(set, &member).saturating_add(1));
    }
    set.reserve(&member)?;
    set.add_reserved(&member);
    Ok(true)
}

// `drop MEMBER`: room is made, and the member, which has to be the last of its site or its name, goes out.
fn drop_last(set: &mut Vector, words: &mut Words<'_>, out: &mut String) -> Result<bool, Memory> {
    let Some(member) = words.member() else {
        return Ok(false);
    };
    if !is_last(set, &member) {
        out.push_str("not last")?;
        return Ok(true);
    }
    set.reserve(&member)?;
    set.drop_last(&member);
    Ok(true)
}

// `through MEMBER`: the member, which has to be next, comes into room that is made, and goes out again in that room. What
// was the last of its site or its name in between.
fn through(set: &mut Vector, words: &mut Words<'_>, out: &mut String) -> Result<bool, Memory> {
    let Some(member) = words.member() else {
        return Ok(false);
    };
    if !is_next(set, &member) {
        return Ok(false);
    }
    set.reserve(&member)?;
    set.add_reserved(&member);
    let last = last_of(set, &member);
    if is_last(set, &member) {
        set.drop_last(&member);
    }
    put_number(out, u64::from(last))?;
    Ok(true)
}

fn call_reading(
    call: &str,
    set: &Vector,
    words: &mut Words<'_>,
    out: &mut String,
) -> Result<bool, Memory> {
    match call {
        "count" => count(set, words, out),
        "has" => has(set, words, out),
        "siteat" => site_at(set, words, out),
        "entryat" => entry_at(set, words, out),
        "sizes" => sizes(set, out),
        "is" => {
            put_set(out, set)?;
            Ok(true)
        }
        "words" => {
            put_number(out, (size_of::<Vector>() / 8) as u64)?;
            Ok(true)
        }
        _ => match words.name() {
            Some(name) => call_of_name(call, set, &name, out),
            None => Ok(false),
        },
    }
}

// `count SITE`
fn count(set: &Vector, words: &mut Words<'_>, out: &mut String) -> Result<bool, Memory> {
    let Some(site) = words.short() else {
        return Ok(false);
    };
    put_number(out, u64::from(set.count(site)))?;
    Ok(true)
}

// `has MEMBER`
fn has(set: &Vector, words: &mut Words<'_>, out: &mut String) -> Result<bool, Memory> {
    let Some(member) = words.member() else {
        return Ok(false);
    };
    put_truth(out, set.contains(&member))?;
    Ok(true)
}

// `siteat PLACE`: the site there with its count.
fn site_at(set: &Vector, words: &mut Words<'_>, out: &mut String) -> Result<bool, Memory> {
    let Some(i) = words.number() else {
        return Ok(false);
    };
    match set.site_at(i) {
        Some((site, count)) => {
            put_number(out, u64::from(site))?;
            put_further(out, u64::from(count))?;
        }
        None => put_none(out)?,
    }
    Ok(true)
}

// `entryat PLACE`: the last group of the undone name there.
fn entry_at(set: &Vector, words: &mut Words<'_>, out: &mut String) -> Result<bool, Memory> {
    let Some(i) = words.number() else {
        return Ok(false);
    };
    match set.entry_at(i) {
        Some((name, generation)) => put_turn(out, &name, generation)?,
        None => put_none(out)?,
    }
    Ok(true)
}

// `sizes`: how many sites, undone names and originals there are.
fn sizes(set: &Vector, out: &mut String) -> Result<bool, Memory> {
    put_number(out, u64::from(set.sites()))?;
    put_further(out, u64::from(set.entries()))?;
    put_further(out, u64::from(set.rank()))?;
    Ok(true)
}

// `entry NAME`, `generation NAME`, `inforce NAME` and `next NAME`
fn call_of_name(call: &str, set: &Vector, name: &Name, out: &mut String) -> Result<bool, Memory> {
    match call {
        "entry" => put_number(out, u64::from(set.entry(name)))?,
        "generation" => put_number(out, u64::from(generation(set, name)))?,
        "inforce" => put_truth(out, in_force(set, name))?,
        "next" => put_found(out, next_generation(set, name).map(u32::from))?,
        _ => return Ok(false),
    }
    Ok(true)
}
