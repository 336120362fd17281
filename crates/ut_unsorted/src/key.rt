//! The keys that a dictionary holds and looks up. A hasher is fed all the bytes of a key at once.
ghost use Rattle.std.specs.Prelude.{◌≡◌, ◌≤◌, length, IfOk};
ghost use Rattle.std.specs.Int.{to_be_bytes, w64};
ghost use Rattle.std.specs.Cmp.{partial_equiv_from_equiv};
ghost use Rattle.std.specs.Cmp.Lexicographic.{nat_list_eq_equiv};
ghost use Rattle.ut_unsorted.specs.FirstSeen.{key_eq};
ghost use Rattle.ut_unsorted.specs.Hashed.{one_write, same_write};

use indexmap::Equivalent;
use smallvec::SmallVec;
use std::alloc::{AllocError, Global};
use std::hash::{Hash, Hasher};
use std::marker::Model;

/// A key of eight bytes, as that of a number. It lies as a number does, so that one is read and written at once.
#[derive(Drop)]
pub struct Word {
    bytes: [u8; 8],
    align: [u64; 0],
}

impl Model for Word {
    ghost use Rattle.std.specs.Prelude.{List, ℕ};

    ghost Value = { List ℕ };

    ghost view = { λ w. w.bytes };
}

impl Word {
    /// A key of eight bytes as a word.
    pub fn of(key: &[u8]) -> Self
        requires { length key.now ≡ 8 }
        ensures { result ≡ key.now }
    {
        Word {
            bytes: [
                key[0], key[1], key[2], key[3], key[4], key[5], key[6], key[7],
            ],
            align: [],
        }
    }

    /// The bytes.
    pub fn as_slice(&self) -> &[u8]
        ensures bytes { result.now ≡ self.now }
        ensures eight { length result.now ≡ 8 }
    {
        &self.bytes[..]
    }

    /// The number that the bytes spell, the highest first.
    pub fn number(&self) -> u64
        ensures { to_be_bytes w64 result ≡ self.now }
    {
        number_of(self.bytes)
    }
}

fn number_of(bytes: [u8; 8]) -> u64
    ensures { to_be_bytes w64 result ≡ bytes }
{
    u64::from_be_bytes(bytes)
}

/// A key of at most 255 bytes. Up to 24 take no allocation.
#[derive(Drop)]
pub struct Text {
    bytes: SmallVec<u8, 24>,
}

impl Model for Text {
    ghost use Rattle.std.specs.Prelude.{List, ℕ, length, ◌≤◌};

    ghost Value = { List ℕ };

    ghost view = { λ t. t.bytes.items };

    ghost invariant = { λ t. length t.bytes.items ≤ 255 };
}

impl Text {
    /// A copy of a key.
    pub fn of(alloc: Global, key: &[u8]) -> Result<Self, AllocError>
        requires { length key.now ≤ 255 }
        ensures { IfOk result (λ text. text ≡ key.now) }
    {
        let bytes = SmallVec::from_slice(alloc, key)?;
        Ok(Text { bytes })
    }

    /// The bytes.
    pub fn as_slice(&self) -> &[u8]
        ensures bytes { result.now ≡ self.now }
        ensures short { length result.now ≤ 255 }
    {
        self.bytes.as_slice()
    }
}

/// A key that is looked for among others.
#[derive(Clone, Copy)]
pub struct Sought<'a> {
    pub bytes: &'a [u8],
}

impl PartialEq for Word {
    ghost eq = { key_eq };

    ghost laws = { partial_equiv_from_equiv nat_list_eq_equiv };

    fn eq(&self, other: &Self) -> bool {
        self.number() == other.number()
    }
}

impl Eq for Word {
    ghost laws = { nat_list_eq_equiv };
}

impl Hash for Word {
    ghost hash_input = { one_write };

    ghost respects_eq = { same_write };

    fn hash<H: Hasher>(&self, state: &mut H) {
        state.write(self.as_slice());
    }
}

impl PartialEq for Text {
    ghost eq = { key_eq };

    ghost laws = { partial_equiv_from_equiv nat_list_eq_equiv };

    fn eq(&self, other: &Self) -> bool {
        self.as_slice() == other.as_slice()
    }
}

impl Eq for Text {
    ghost laws = { nat_list_eq_equiv };
}

impl Hash for Text {
    ghost hash_input = { one_write };

    ghost respects_eq = { same_write };

    fn hash<H: Hasher>(&self, state: &mut H) {
        state.write(self.as_slice());
    }
}

impl<'a> PartialEq for Sought<'a> {
    ghost eq = { λ x y. key_eq x.bytes.now y.bytes.now };

    ghost use Rattle.std.specs.Cmp.{on_per};

    ghost laws = { on_per (λ x. x.bytes.now) (partial_equiv_from_equiv nat_list_eq_equiv) };

    fn eq(&self, other: &Self) -> bool {
        self.bytes == other.bytes
    }
}

impl<'a> Eq for Sought<'a> {
    ghost use Rattle.std.specs.Cmp.{on_equiv};

    ghost laws = { on_equiv (λ x. x.bytes.now) nat_list_eq_equiv };
}

impl<'a> Hash for Sought<'a> {
    ghost hash_input = { λ x. one_write x.bytes.now };

    ghost respects_eq = { λ x y. same_write x.bytes.now y.bytes.now };

    fn hash<H: Hasher>(&self, state: &mut H) {
        state.write(self.bytes);
    }
}

impl<'a> Equivalent<Word> for Sought<'a> {
    ghost equivalent = { λ x. key_eq x.bytes.now };

    ghost respects_hash = { λ x. same_write x.bytes.now };

    ghost respects_eq = { λ x. nat_list_eq_equiv.congr x.bytes.now };

    fn equivalent(&self, key: &Word) -> bool {
        self.bytes == key.as_slice()
    }
}

impl<'a> Equivalent<Text> for Sought<'a> {
    ghost equivalent = { λ x. key_eq x.bytes.now };

    ghost respects_hash = { λ x. same_write x.bytes.now };

    ghost respects_eq = { λ x. nat_list_eq_equiv.congr x.bytes.now };

    fn equivalent(&self, key: &Text) -> bool {
        self.bytes == key.as_slice()
    }
}
