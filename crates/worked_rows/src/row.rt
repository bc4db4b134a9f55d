//! A row of the table.

use std::alloc::Global;

/// As many bytes as a read gives at most, where a row doesn't say.
const CHUNK: u32 = 4096;

/// One call: its words, what it is given, and what it has to do.
#[derive(Drop)]
pub(crate) struct Row {
    pub(crate) name: String,
    /// Whether lines of this row may still come.
    pub(crate) is_open: bool,
    /// Whether one of its lines wasn't read.
    pub(crate) is_unread: bool,
    pub(crate) has_words: bool,
    pub(crate) words: Vec<String>,
    /// The bytes of the source, and the most that a read gives; or whether one call is made for each such number.
    pub(crate) given: Vec<u8>,
    pub(crate) chunk: u32,
    pub(crate) has_each_chunk: bool,
    /// Lines that come after these bytes, in the first so many orders, one call each.
    pub(crate) mixed: Vec<String>,
    pub(crate) orders: u32,
    /// What comes after those lines.
    pub(crate) then: Vec<u8>,
    /// What the peer sends, if there is one.
    pub(crate) has_peer: bool,
    pub(crate) peer: Vec<u8>,
    /// The numbers of the reads, the writes and the calls of the wire that fail.
    pub(crate) bad_reads: Vec<u32>,
    pub(crate) bad_writes: Vec<u32>,
    pub(crate) bad_calls: Vec<u32>,
    /// The exit status.
    pub(crate) status: u32,
    /// All that is written, if the row tells it.
    pub(crate) tells_out: bool,
    pub(crate) out: Vec<u8>,
    /// Lines that stand in what is written.
    pub(crate) has: Vec<String>,
    /// The lines at its end.
    pub(crate) ending: Vec<u8>,
    /// The name of what is written, for the rows below; none if it is empty.
    pub(crate) kept: String,
    /// What is sent to the peer, if the row tells it.
    pub(crate) tells_sent: bool,
    pub(crate) sent: Vec<u8>,
}

impl Row {
    /// No row yet.
    pub(crate) fn new(alloc: Global) -> Row {
        Row {
            name: String::new(alloc),
            is_open: false,
            is_unread: false,
            has_words: false,
            words: Vec::new(alloc),
            given: Vec::new(alloc),
            chunk: CHUNK,
            has_each_chunk: false,
            mixed: Vec::new(alloc),
            orders: 1,
            then: Vec::new(alloc),
            has_peer: false,
            peer: Vec::new(alloc),
            bad_reads: Vec::new(alloc),
            bad_writes: Vec::new(alloc),
            bad_calls: Vec::new(alloc),
            status: 0,
            tells_out: false,
            out: Vec::new(alloc),
            has: Vec::new(alloc),
            ending: Vec::new(alloc),
            kept: String::new(alloc),
            tells_sent: false,
            sent: Vec::new(alloc),
        }
    }

    /// Opens a row of which nothing is told.
    pub(crate) fn begin(&mut self) {
        self.is_open = true;
        self.is_unread = false;
        self.clear_given();
        self.clear_failing();
        self.clear_wanted();
    }

    fn clear_given(&mut self) {
        self.name.clear();
        self.has_words = false;
        self.words.clear();
        self.given.clear();
        self.chunk = CHUNK;
        self.has_each_chunk = false;
        self.mixed.clear();
        self.orders = 1;
        self.then.clear();
        self.has_peer = false;
        self.peer.clear();
    }

    fn clear_failing(&mut self) {
        self.bad_reads.clear();
        self.bad_writes.clear();
        self.bad_calls.clear();
    }

    fn clear_wanted(&mut self) {
        self.status = 0;
        self.tells_out = false;
        self.out.clear();
        self.has.clear();
        self.ending.clear();
        self.kept.clear();
        self.tells_sent = false;
        self.sent.clear();
    }

    /// Why this isn't a whole row, if it isn't.
    pub(crate) fn fault(&self) -> Option<&'static str> {
        if self.is_unread {
            Some("a line of it isn't read")
        } else if self.name.is_empty() {
            Some("it has no name")
        } else if !self.has_words {
            Some("it has no words")
        } else if self.orders > 1 && self.mixed.is_empty() {
            Some("it has orders of no lines")
        } else if self.has_each_chunk && !self.is_given() {
            Some("it has reads of no bytes")
        } else if !self.tells_writing() {
            Some("it doesn't tell what is written")
        } else if self.has_peer && !self.tells_sent {
            Some("it doesn't tell what is sent")
        } else {
            None
        }
    }

    fn is_given(&self) -> bool {
        !self.given.is_empty() || !self.mixed.is_empty() || !self.then.is_empty()
    }

    fn tells_writing(&self) -> bool {
        self.tells_out || !self.has.is_empty() || !self.ending.is_empty() || !self.kept.is_empty()
    }
}
