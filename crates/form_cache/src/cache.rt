//! The cache: forms under their keys, and which of them goes when there are too many.

ghost use Rattle.std.specs.Prelude.{◌≡◌, ◌≤◌, ◌⊎◌, [], true, false, length, option_map, IfOk, IsSome};
ghost use Rattle.std.specs.List.{IsDistinct};
ghost use Rattle.std.specs.Map.{keys_of, lookup};
ghost use Rattle.lru.specs.LruCache.{last_entry};
ghost use Rattle.form_cache.specs.Keys.{key_eq};
ghost use Rattle.form_cache.specs.Entries.{form_at, used, spent, asked, with_form};

use crate::key::Key;
use lru::LruCache;
use op_name::Memory;
use std::alloc::Global;
use std::marker::Model;
use std::num::NonZeroUsize;

/// What a cache has under a key, as contracts name it.
#[derive(Clone, Copy, Debug)]
pub struct Kept<F> {
    pub form: F,
    /// Whether the form is kept for one use: after it, its entry is the next to be dropped.
    pub once: bool,
}

/// Forms, each kept under a key, at most as many as the capacity. Where a new key comes to a full cache, the last
/// entry is dropped. Keeping puts an entry first; `ask` puts an entry last that is kept for one use, and another one
/// first; `get` puts each first, and `peek` moves none.
#[derive(Drop)]
pub struct Cache<F> {
    forms: LruCache<Key, Kept<F>>,
}

impl<F> Model for Cache<F> {
    ghost use Rattle.form_cache.specs.Entries.{CacheData};

    ghost Value = { CacheData F };

    ghost view = { λ c. record { entries = c.forms.entries; capacity = c.forms.cap } };
}

impl<F: Copy> Cache<F> {
    /// The cache without entries, for at most `capacity` of them, at least 1. It takes little memory here, and more as
    /// it fills.
    pub fn new(alloc: Global, capacity: u32) -> Result<Cache<F>, Memory>
        requires { 1 ≤ capacity }
        ensures { IfOk result (λ c. c ≡ record { entries = []; capacity = capacity }) }
    {
        let Some(most) = NonZeroUsize::new(capacity as usize) else {
            unreachable!();
        };
        let forms = LruCache::sparse(alloc, most)?;
        Ok(Cache { forms })
    }

    /// Nothing but what the type keeps: no two entries have one key, and there are at most as many as the capacity.
    pub fn known(&self)
        ensures distinct { IsDistinct key_eq (keys_of self.now.entries) }
        ensures bounded { length self.now.entries ≤ self.now.capacity }
        ensures least { 1 ≤ self.now.capacity }
    {
        let _ = self.forms.len();
    }

    /// The form that is kept under the key, whose entry is put first; None exactly where the entries lack the key.
    /// It takes no memory.
    pub fn get(&mut self, key: &Key) -> Option<F>
        ensures form { result ≡ form_at self.old.entries key.now }
        ensures entries { self.new.entries ≡ used self.old.entries key.now }
        ensures capacity { self.new.capacity ≡ self.old.capacity }
    {
        Some(self.forms.get(key)?.form)
    }

    /// The form that is kept under the key; None exactly where the entries lack the key. An entry that is kept for one
    /// use is put last, as the next to be dropped; another one is put first. It takes no memory.
    pub fn ask(&mut self, key: &Key) -> Option<F>
        ensures form { result ≡ form_at self.old.entries key.now }
        ensures entries { self.new.entries ≡ asked self.old.entries key.now }
        ensures capacity { self.new.capacity ≡ self.old.capacity }
    {
        self.known();
        let kept = self.spend(key)?;
        if kept.once {
            return Some(kept.form);
        }
        self.forms.promote(key);
        Some(kept.form)
    }

    /// The form that is kept under the key; None exactly where the entries lack the key. It takes no memory, and
    /// leaves the entries as they are.
    pub fn peek(&self, key: &Key) -> Option<F>
        ensures { result ≡ form_at self.now.entries key.now }
    {
        Some(self.forms.peek(key)?.form)
    }

    /// Puts the form first, under its key, for any number of uses; where the key is new the last entry of a full cache
    /// is dropped. Out of memory it drops what was given; for a key that is there it needs none.
    pub fn keep(&mut self, key: Key, form: F)
        ensures entries { (self.new.entries ≡ with_form self.old key form false) ⊎ (self.new.entries ≡ self.old.entries) }
        ensures there { IsSome (form_at self.old.entries key) → self.new.entries ≡ with_form self.old key form false }
        ensures capacity { self.new.capacity ≡ self.old.capacity }
    {
        let _ = self.forms.put(key, Kept { form, once: false });
    }

    /// Does as `keep`, but for one use: the first `ask` for the key makes its entry the next to be dropped. An entry
    /// that was there for more uses is then one for one use.
    pub fn keep_once(&mut self, key: Key, form: F)
        ensures entries { (self.new.entries ≡ with_form self.old key form true) ⊎ (self.new.entries ≡ self.old.entries) }
        ensures there { IsSome (form_at self.old.entries key) → self.new.entries ≡ with_form self.old key form true }
        ensures capacity { self.new.capacity ≡ self.old.capacity }
    {
        let _ = self.forms.put(key, Kept { form, once: true });
    }

    /// Takes all entries out. It takes no memory.
    pub fn clear(&mut self)
        ensures entries { self.new.entries ≡ [] }
        ensures capacity { self.new.capacity ≡ self.old.capacity }
    {
        self.forms.clear();
    }

    // What is kept under the key. Its entry is put last before it is read there: so one look into the table serves for a
    // form for one use.
    fn spend(&mut self, key: &Key) -> Option<Kept<F>>
        ensures found { result ≡ lookup (key_eq key.now) self.old.entries }
        ensures entries { self.new.entries ≡ spent self.old.entries key.now }
        ensures capacity { self.new.capacity ≡ self.old.capacity }
    {
        if self.forms.demote(key) {
            self.last()
        } else {
            None
        }
    }

    // What the last entry keeps.
    fn last(&self) -> Option<Kept<F>>
        ensures { result ≡ option_map (λ e. e.1) (last_entry self.now.entries) }
    {
        let entry = self.forms.peek_lru()?;
        Some(*entry.1)
    }
}
