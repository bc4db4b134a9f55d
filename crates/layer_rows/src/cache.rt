//! Calls of a cache of characters.

use crate::answers::put_none;
use crate::words::Words;
use form_cache::{Cache, Key};
use op_name::Memory;
use std::alloc::Global;

pub(crate) fn call_cache(
    alloc: Global,
    words: &mut Words<'_>,
    cache: &mut Option<Cache<char>>,
    out: &mut String,
) -> Result<bool, Memory> {
    let call = words.word();
    if call == "new" {
        return new(alloc, words, cache);
    }
    match cache {
        Some(cache) => call_one(alloc, call, words, cache, out),
        None => Ok(false),
    }
}

// `new CAPACITY`
fn new(
    alloc: Global,
    words: &mut Words<'_>,
    cache: &mut Option<Cache<char>>,
) -> Result<bool, Memory> {
    match words.number() {
        Some(capacity) if 1 <= capacity => {
            *cache = Some(Cache::new(alloc, capacity)?);
            Ok(true)
        }
        _ => Ok(false),
    }
}

fn call_one(
    alloc: Global,
    call: &str,
    words: &mut Words<'_>,
    cache: &mut Cache<char>,
    out: &mut String,
) -> Result<bool, Memory> {
    match call {
        "keep" => keep(alloc, words, cache),
        "once" => keep_once(alloc, words, cache),
        "clear" => {
            cache.clear();
            Ok(true)
        }
        _ => find(alloc, call, words, cache, out),
    }
}

/// A key: `MEMBER SET`.
fn key(alloc: Global, words: &mut Words<'_>) -> Result<Option<Key>, Memory> {
    let Some(member) = words.member() else {
        return Ok(None);
    };
    match words.set(alloc)? {
        Some(context) => Ok(Some(Key { member, context })),
        None => Ok(None),
    }
}

// `keep MEMBER SET CHARACTER`
fn keep(alloc: Global, words: &mut Words<'_>, cache: &mut Cache<char>) -> Result<bool, Memory> {
    let Some(key) = key(alloc, words)? else {
        return Ok(false);
    };
    match words.character() {
        Some(ch) => {
            cache.keep(key, ch);
            Ok(true)
        }
        None => Ok(false),
    }
}

// `once MEMBER SET CHARACTER`: it is kept for one use.
fn keep_once(
    alloc: Global,
    words: &mut Words<'_>,
    cache: &mut Cache<char>,
) -> Result<bool, Memory> {
    let Some(key) = key(alloc, words)? else {
        return Ok(false);
    };
    match words.character() {
        Some(ch) => {
            cache.keep_once(key, ch);
            Ok(true)
        }
        None => Ok(false),
    }
}

/// What is found under the key by a call: None where there is no such call.
fn found(call: &str, cache: &mut Cache<char>, key: &Key) -> Option<Option<char>> {
    match call {
        "get" => Some(cache.get(key)),
        "ask" => Some(cache.ask(key)),
        "peek" => Some(cache.peek(key)),
        _ => None,
    }
}

// `get MEMBER SET`, `ask MEMBER SET` and `peek MEMBER SET`
fn find(
    alloc: Global,
    call: &str,
    words: &mut Words<'_>,
    cache: &mut Cache<char>,
    out: &mut String,
) -> Result<bool, Memory> {
    let Some(key) = key(alloc, words)? else {
        return Ok(false);
    };
    put_found(out, found(call, cache, &key))
}

fn put_found(out: &mut String, found: Option<Option<char>>) -> Result<bool, Memory> {
    match found {
        Some(Some(ch)) => out.push(ch)?,
        Some(None) => put_none(out)?,
        None => return Ok(false),
    }
    Ok(true)
}
