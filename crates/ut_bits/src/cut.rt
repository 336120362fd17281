//! A list that grows, or is cut back where there is no memory.
ghost use Rattle.std.specs.Prelude.{◌≡◌, ◌++◌, ◌∷◌, [], take, OnOk, OnErr};

use std::alloc::AllocError;

/// Appends a number, or cuts the list back to its first `len` numbers where there is no memory.
pub fn push_or_cut(item: u32, len: usize, out: &mut Vec<u32>) -> Result<(), AllocError>
    ensures ok { OnOk result (out.new.items ≡ out.old.items ++ item ∷ []) }
    ensures err { OnErr result (out.new.items ≡ take len out.old.items) }
{
    match out.push(item) {
        Ok(()) => Ok(()),
        Err(failed) => {
            out.truncate(len);
            Err(AllocError::from(failed))
        }
    }
}

/// Cuts a list back to its first `len` items where what was appended last has failed.
pub fn cut_at_error<T: Drop>(
    done: Result<(), AllocError>,
    len: usize,
    out: &mut Vec<T>,
) -> Result<(), AllocError>
    ensures same { result ≡ done }
    ensures ok { OnOk result (out.new.items ≡ out.old.items) }
    ensures err { OnErr result (out.new.items ≡ take len out.old.items) }
{
    match done {
        Ok(()) => Ok(()),
        Err(failed) => {
            out.truncate(len);
            Err(failed)
        }
    }
}
