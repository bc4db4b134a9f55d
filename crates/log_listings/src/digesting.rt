//! The command `digest`.

ghost use Rattle.std.specs.Prelude.{◌≡◌, ◌++◌, OnOk};
ghost use Rattle.hex.specs.Hex.{encode_lower};
ghost use Rattle.cot_site.specs.Sites.{state_of};
ghost use Rattle.log_listings.specs.Digests.{IsDigested, digest_reply};

use crate::hashing::{hash_of_history, hash_of_text};
use cot_site::Site;
use hex::encode_to_slice;
use log_replies::Replies;
use op_name::Memory;
use site_answers::put;
use std::alloc::Global;

/// Loads a log as site 0, and writes how many operations its history has, and the hashes of it and of its text.
#[derive(Drop)]
pub struct Digesting;

impl Replies for Digesting {
    ghost replies = { λ _. IsDigested };

    ghost number = { λ _. 0 };

    ghost replies_to = { λ _ s reply. reply ≡ digest_reply s };

    ghost in_range = { λ _. Unit {0} };

    fn site(&self) -> u16 {
        0
    }

    fn reply(&self, alloc: Global, site: &mut Site, out: &mut Vec<u8>) -> Result<bool, Memory> {
        put_digest(alloc, site, out)?;
        Ok(false)
    }

    ghost by_log = { λ _ bytes reply it. it };
}

// Appends the lines of the digest of a site.
fn put_digest(alloc: Global, site: &Site, out: &mut Vec<u8>) -> Result<(), Memory>
    ensures { OnOk result (out.new.items ≡ out.old.items ++ (digest_reply (state_of site.now)).written) }
{
    let history = hash_of_history(alloc, site.book())?;
    let text = hash_of_text(alloc, site)?;
    put::number(out, b"operations ", u64::from(site.book().len()))?;
    put_hash(b"\nhistory ", &history, out)?;
    put_hash(b"\ntext ", &text, out)?;
    put::text(out, b"\n")
}

// Appends a word and a hash in base 16.
fn put_hash(word: &[u8], hash: &[u8; 32], out: &mut Vec<u8>) -> Result<(), Memory>
    ensures { OnOk result (out.new.items ≡ out.old.items ++ (word.now ++ encode_lower hash.now)) }
{
    put::text(out, word)?;
    let mut digits = [0; 64];
    match encode_to_slice(hash, &mut digits) {
        Ok(()) => put::text(out, &digits),
        Err(_) => unreachable!(),
    }
}
