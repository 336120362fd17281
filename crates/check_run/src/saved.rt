//! What crashes and questions are made of, for the crates that check crowds.
use std::alloc::AllocError;
use ut_outside::Tear;

/// What a crash may make of what isn't synced, amid a crowd.
pub const TEARS: [Tear; 5] = [
    Tear::Old,
    Tear::New,
    Tear::Fill(0x00),
    Tear::Fill(0xA7),
    Tear::Fill(0xFF),
];

/// Asks a store for its rows, its stages, and the numbers of its merges and its commits.
pub const QUESTION: &[u8] = b"1 select T *\n0 shape T\n0 merge begin T classic\n1 create Z k:int\n";

/// Puts a line behind others.
pub fn put_line(lines: &mut Vec<u8>, line: &[u8]) -> Result<(), AllocError> {
    lines.extend_from_slice(line)?;
    lines.push(b'\n')?;
    Ok(())
}
