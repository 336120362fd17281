//! Which places a merge keeps.
ghost use Rattle.std.specs.Prelude.{◌≡◌, ◌<◌, [], length, map, get_or};

use std::marker::Model;

/// A flag for each place: a list for each part, and behind them one for the closed stage.
#[derive(Drop)]
pub struct Keep {
    lists: Vec<Vec<bool>>,
}

impl Model for Keep {
    ghost use Rattle.std.specs.Prelude.{List, Bool, map};

    ghost Value = { List (List Bool) };

    ghost view = { λ k. map (λ list. list.items) k.lists.items };
}

impl Keep {
    pub fn of(lists: Vec<Vec<bool>>) -> Self
        ensures { result ≡ map (λ list. list.items) lists.items }
    {
        Keep { lists }
    }

    /// The flags of a part, or of the closed stage.
    pub fn list(&self, list: u8) -> &[bool]
        requires { list < length self.now }
        ensures { result.now ≡ get_or self.now list [] }
    {
        self.lists[list as usize].as_slice()
    }
}
