//! The lines of crowds.
use std::alloc::{AllocError, Global};

/// Three sessions of twenty lines over one table: rows, transactions, changes of each other's rows, and questions.
pub const OF_THREE: &[u8] = b"1 create T k:int\n\
    1 insert T 1\n1 insert T 2\n1 begin\n1 insert T 3\n1 update T set k 30 where k = 3\n1 commit\n\
    1 select T * where k >= 2\n1 delete T where k = 1\n1 begin\n1 bulk T 4 5 6\n1 abort\n1 bulk T 7 8\n1 count T\n\
    1 sum T k\n1 update T set k 70 where k = 7\n1 insert T 9\n1 insert T 10\n1 insert T 11\n1 count T where k >= 9\n\
    2 insert T 101\n2 begin\n2 insert T 102\n2 delete T where k < 10\n2 commit\n2 insert T 103\n2 select T *\n\
    2 bulk T 104 105\n2 begin\n2 update T set k 106 where k = 104\n2 count T\n2 commit\n2 insert T 107\n2 insert T 108\n\
    2 max T k\n2 begin\n2 delete T\n2 abort\n2 insert T 109\n2 min T k where k > 100\n\
    3 insert T 201\n3 insert T 202\n3 insert T 203\n3 insert T 204\n3 insert T 205\n3 insert T 206\n3 insert T 207\n\
    3 insert T 208\n3 insert T 209\n3 insert T 210\n3 insert T 211\n3 insert T 212\n3 insert T 213\n3 insert T 214\n\
    3 insert T 215\n3 insert T 216\n3 insert T 217\n3 insert T 218\n3 insert T 219\n3 sum T k\n";

/// So many lines of them.
pub const LINES_OF_THREE: usize = 60;

/// The same, and a fourth session that inserts sixty rows, so that savepoints have the time to end.
pub fn of_four(alloc: Global) -> Result<Vec<u8>, AllocError> {
    let mut lines = Vec::from_slice(alloc, OF_THREE)?;
    for row in 400..460u32 {
        let line = format!(in alloc; "4 insert T {row}\n")?;
        lines.extend_from_slice(line.as_bytes())?;
    }
    Ok(lines)
}

/// Two sessions of few lines, and a line of nobody's before them.
pub const OF_TWO: &[u8] =
    b"nobody\n1 create T k:int\n1 insert T 1\n1 bulk T 2 3\n2 insert T 4\n2 begin\n2 insert T 5\n2 commit\n";
