//! What a run has told.
use ut_outside::Ack;

/// How many entries the journal had at the last reply.
pub fn last_told(acks: &[Ack]) -> u64 {
    acks.last().map_or(0, |ack| ack.journal)
}
