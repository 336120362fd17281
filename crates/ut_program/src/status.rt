//! What the program says of how a run ended.
ghost use Rattle.std.specs.Prelude.{◌≡◌};
ghost use Rattle.std.specs.Option.{option_map};
ghost use Rattle.ut_program.specs.Program.{error_text, exit_number};

use ut_app::Status;

/// What is written on the standard error.
pub(crate) fn text_of(status: Status) -> Option<&'static str>
    ensures { option_map (λ text. text.now) result ≡ error_text status }
{
    match status {
        Status::Done => None,
        Status::Usage => Some("usage"),
        Status::NoStore => Some("no store"),
        Status::Exists => Some("store exists"),
        Status::ReadFault => Some("read fault"),
        Status::WriteFault => Some("write fault"),
        Status::DiskFault => Some("disk fault"),
        Status::Damaged => Some("damaged store"),
        Status::Memory => Some("no memory"),
        Status::TooLong => Some("input too long"),
    }
}

/// What the program exits with.
pub(crate) fn exit_of(status: Status) -> u8
    ensures { result ≡ exit_number status }
{
    match status {
        Status::Done => 0,
        Status::Usage => 2,
        Status::NoStore | Status::Exists => 3,
        Status::ReadFault => 4,
        Status::WriteFault => 5,
        Status::DiskFault => 6,
        Status::Damaged => 7,
        Status::Memory => 8,
        Status::TooLong => 9,
    }
}
