//! The keys that a column's codes count through.
ghost use Rattle.std.specs.Prelude.{◌≡◌, ◌<◌, [], length, get_or};
ghost use Rattle.ut_prefix.specs.Chain.{end_to_end};
ghost use Rattle.ut_main.specs.Parts.{dicts_behind};

use ut_main::Main;

/// How many keys the dictionaries of a column in main have.
pub(crate) fn keys_in(main: &Main, column: u8) -> u32
    requires { column < main.now.width }
    ensures { result ≡ length (end_to_end (get_or (dicts_behind main.now) column [])) }
{
    let parts = main.parts();
    if parts == 0 {
        0
    } else {
        main.chain(column, parts - 1).len()
    }
}
