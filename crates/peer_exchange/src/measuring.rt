//! How long a message is, as far as its bytes tell.

ghost use Rattle.std.specs.Prelude.{◌≡◌, ℕ, ◌≤◌, ◌<◌, length};
ghost use Rattle.peer_exchange.specs.declared.messages.TheConstants.{MAX_MESSAGE};
ghost use Rattle.peer_exchange.specs.Measuring.{start, head_piece, stated, state_piece, frame_piece, piece_of, measure_of};
ghost use Rattle.peer_exchange.specs.Code.Places.{Stands, Fits, IsJudged};

use crate::messages::{Measure, PeerCause, Which};
use crate::stages::{Judged, Piece, Place, Stage};
use wire_codec::{Scan, StateScan, scan_state, scan2};

/// The front of a message.
pub(crate) fn start(which: Which) -> Place
    ensures stage { result.stage ≡ start which }
    ensures at { result.at ≡ 0 }
{
    let stage = match which {
        Which::First => Stage::Head { frames: false },
        Which::Second => Stage::Head { frames: true },
        Which::Third => Stage::Frames,
    };
    Place { stage, at: 0 }
}

fn head_piece(frames: bool, bytes: &[u8]) -> Piece
    ensures value { result ≡ head_piece frames bytes.now }
    ensures fits { Fits (length bytes.now) result }
{
    if bytes.len() < 8 {
        return Piece::More { at_least: 8 };
    }
    if bytes.starts_with(b"COTVEC2\n") {
        return Piece::Got {
            next: Stage::State { frames },
            used: 8,
        };
    }
    Piece::Bad {
        offset: 0,
        cause: PeerCause::Head,
    }
}

// What the answer on a state says of the part that it is.
fn stated(frames: bool, scan: StateScan) -> Piece
    ensures { result ≡ stated frames scan }
{
    match scan {
        StateScan::State { used } if frames => Piece::Got {
            next: Stage::Frames,
            used,
        },
        StateScan::State { used } => Piece::Whole { used },
        StateScan::More { at_least } => Piece::More { at_least },
        StateScan::Bad { cause, offset } => Piece::Bad {
            offset,
            cause: PeerCause::Frame(cause),
        },
    }
}

fn state_piece(frames: bool, bytes: &[u8]) -> Piece
    requires { length bytes.now ≤ MAX_MESSAGE }
    ensures value { result ≡ state_piece frames bytes.now }
    ensures fits { Fits (length bytes.now) result }
{
    stated(frames, scan_state(bytes))
}

fn frame_piece(bytes: &[u8]) -> Piece
    ensures value { result ≡ frame_piece bytes.now }
    ensures fits { Fits (length bytes.now) result }
{
    if bytes.len() < 4 {
        return Piece::More { at_least: 4 };
    }
    if u32::from_be_bytes([bytes[0], bytes[1], bytes[2], bytes[3]]) == 0 {
        return Piece::Whole { used: 4 };
    }
    match scan2(bytes) {
        Scan::Frame { used } => Piece::Got {
            next: Stage::Frames,
            used,
        },
        Scan::More { at_least } => Piece::More {
            at_least: u64::from(at_least),
        },
        Scan::Bad { cause, offset } => Piece::Bad {
            offset,
            cause: PeerCause::Frame(cause),
        },
    }
}

fn piece_of(stage: Stage, bytes: &[u8]) -> Piece
    requires { length bytes.now ≤ MAX_MESSAGE }
    ensures value { result ≡ piece_of stage bytes.now }
    ensures fits { Fits (length bytes.now) result }
{
    match stage {
        Stage::Head { frames } => head_piece(frames, bytes),
        Stage::State { frames } => state_piece(frames, bytes),
        Stage::Frames => frame_piece(bytes),
    }
}

// Judges the part at a place.
fn judged(place: Place, bytes: &[u8]) -> Judged
    requires within { place.at ≤ length bytes.now }
    requires short { length bytes.now ≤ MAX_MESSAGE }
    ensures { IsJudged bytes.now place result }
{
    let (_, rest) = bytes.split_at(place.at);
    match piece_of(place.stage, rest) {
        Piece::Got { next, used } => Judged::On(Place {
            stage: next,
            at: place.at + used as usize,
        }),
        Piece::Whole { used } => Judged::Says(Measure::Whole {
            used: place.at as u32 + used,
        }),
        Piece::More { at_least } => Judged::Says(Measure::More {
            at_least: place.at as u64 + at_least,
        }),
        Piece::Bad { offset, cause } => Judged::Says(Measure::Bad {
            offset: place.at as u32 + offset,
            cause,
        }),
    }
}

/// Judges a message from a place on, as far as its bytes go: the place that was reached, and what the bytes say.
pub(crate) fn go_on(which: Which, from: Place, bytes: &[u8]) -> (Place, Measure)
    requires stands { Stands which bytes.now from }
    requires short { length bytes.now ≤ MAX_MESSAGE }
    ensures value { result.1 ≡ measure_of which bytes.now }
    ensures stands { Stands which bytes.now result.0 }
{
    let mut place = from;
    loop {
        match judged(place, bytes) {
            Judged::On(next) => place = next,
            Judged::Says(measure) => return (place, measure),
        }
    }
}

/// What the bytes say of the message that they begin. It takes no memory.
pub fn measure(which: Which, bytes: &[u8]) -> Measure
    requires { length bytes.now ≤ MAX_MESSAGE }
    ensures { result ≡ measure_of which bytes.now }
{
    let (_, measure) = go_on(which, start(which), bytes);
    measure
}
