//! What stands at the front of bytes, before any payload is read.
ghost use Rattle.ut_stream.specs.Fronts.{IsFront};

use ut_entry::read_u32;
use ut_value::ENTRY_LIMIT;

/// The gate byte of a frame.
const OPEN_GATE: u8 = 0xa7;

/// The bytes before a payload: the gate and the length.
pub(crate) const HEADER_LEN: usize = 5;

/// The most bytes of a payload.
const MAX_PAYLOAD: u32 = ENTRY_LIMIT;

/// What the bytes begin with.
#[derive(Clone, Copy)]
pub(crate) enum Front {
    /// It can't be said yet.
    Short,
    /// A closed gate.
    Closed,
    /// A frame whose payload has so many bytes, and is there.
    Whole(usize),
    /// An open gate with a length that no frame has.
    Off,
}

/// What the bytes begin with.
#[tactic(auto, using(crate::proofs::FrontLemmas::short_none, crate::proofs::FrontLemmas::short_gate, crate::proofs::FrontLemmas::short_part, crate::proofs::FrontLemmas::closed_gate, crate::proofs::FrontLemmas::off_zero, crate::proofs::FrontLemmas::off_long, crate::proofs::FrontLemmas::whole_there))]
pub(crate) fn front_of(bytes: &[u8]) -> Front
    ensures { IsFront bytes.now result }
{
    let [gate, behind @ ..] = bytes else {
        return Front::Short;
    };
    if *gate != OPEN_GATE {
        return Front::Closed;
    }
    let Some((len, payload)) = read_u32(behind) else {
        return Front::Short;
    };
    if len == 0 {
        return Front::Off;
    }
    if len > MAX_PAYLOAD {
        return Front::Off;
    }
    if payload.len() < len as usize {
        return Front::Short;
    }
    Front::Whole(len as usize)
}
