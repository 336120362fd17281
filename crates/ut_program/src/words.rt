//! The words that a program is called with.
ghost use Rattle.std.specs.Prelude.{◌≡◌, ℕ, List, Option, None, map, string_bytes, IfOk, IfErr};
ghost use Rattle.std.specs.Vec.Iter.{into_iter_items};
ghost use Rattle.ut_program.specs.Program.{AreTold, IsUnasked};

use std::alloc::{AllocError, Global};
use std::rt::Env;
use std::{env, io};
use ut_app::Status;

/// Where a program has the words from that it is called with.
pub trait Words {
    /// The words, the program's name first, where they are told.
    ghost told: { Self → Option (List (List ℕ)) };

    /// All of them in order, or why they can't be had.
    fn words(&self, alloc: Global) -> Result<Vec<String>, Status>
        ensures all { IfOk result (λ words. AreTold (told self.now) (map string_bytes words.items)) }
        ensures says { IfErr result (λ status. IsUnasked status (told self.now)) };
}

/// The words of the process. The system alone knows them.
#[derive(Drop)]
pub struct ProcessWords<'a, R> {
    rt: &'a R,
}

impl<'a, R> ProcessWords<'a, R> {
    pub fn new(rt: &'a R) -> ProcessWords<'a, R> {
        ProcessWords { rt }
    }
}

impl<'a, R: AllocGlobal + Env> Words for ProcessWords<'a, R> {
    ghost told = { λ _. None };

    fn words(&self, alloc: Global) -> Result<Vec<String>, Status> {
        match env::args(self.rt) {
            Ok(args) => match gathered(alloc, args) {
                Ok(words) => Ok(words),
                Err(_) => Err(Status::Memory),
            },
            Err(error) => Err(status_of(error)),
        }
    }
}

// All the words of a list, in order.
fn gathered(alloc: Global, args: env::Args<Global>) -> Result<Vec<String>, AllocError>
    ensures { IfOk result (λ words. words.items ≡ into_iter_items args) }
{
    let mut words = Vec::new(alloc);
    for word in args {
        words.push(word)?;
    }
    Ok(words)
}

// Why the system gave none.
fn status_of(error: io::Error) -> Status
    ensures { IsUnasked result None }
{
    match error.kind() {
        io::ErrorKind::OutOfMemory => Status::Memory,
        _ => Status::Usage,
    }
}
