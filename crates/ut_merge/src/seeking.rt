//! The keys of the closed stage that a column of the new part has: those that stand in a dictionary
//! that stays, and the new ones.
ghost use Rattle.std.specs.Prelude.{◌≡◌, ◌↔◌, ◌+◌, ◌*◌, ◌^◌, ◌<◌, ◌≤◌, ◌&&◌, ℕ, [], true, false, not, length, get_or, All, IfOk};
ghost use Rattle.ut_own.specs.Own.{holds};
ghost use Rattle.std.specs.List.{Contains};
ghost use Rattle.ut_key.specs.Keys.{IsAscending};
ghost use Rattle.ut_unsorted.specs.FirstSeen.{keys_at};
ghost use Rattle.ut_prefix.specs.Chain.{chain_steps, end_to_end};
ghost use Rattle.ut_merge.specs.Uniting.{new_flags, AreFound, IsFound, IsUnited};

use crate::uniting::United;
use std::alloc::{AllocError, Global};
use std::sync::ledger::Ledger;
use ut_key::{KeyList, Steps};
use ut_prefix::DictChain;
use ut_unsorted::UnsortedDict;

/// For each key whether it is new, and the code of those used ones that aren't.
#[derive(Drop)]
pub(crate) struct Sought {
    pub new: Vec<bool>,
    pub found: Vec<Option<u32>>,
}

/// Whether a key is new, and its code if it isn't.
#[derive(Clone, Copy)]
struct Seen {
    is_new: bool,
    code: Option<u32>,
}

/// Looks for a key in the dictionaries that stay, once, where it is used.
fn look<L: Ledger>(key: &[u8], is_used: bool, chain: &DictChain, steps: &mut Steps<L>) -> Seen
    ensures new { result.is_new ≡ (is_used && not (holds (end_to_end chain.now) key.now)) }
    ensures found { IsFound (end_to_end chain.now) key.now is_used result.code }
    ensures cost { steps.new ≤ steps.old + chain_steps chain.now }
{
    if !is_used {
        return Seen {
            is_new: false,
            code: None,
        };
    }
    match chain.find(key, steps) {
        Some(code) => Seen {
            is_new: false,
            code: Some(code),
        },
        None => Seen {
            is_new: true,
            code: None,
        },
    }
}

/// Looks for each used key in the dictionaries that stay, once.
pub(crate) fn seek<L: Ledger>(
    alloc: Global,
    closed: &UnsortedDict,
    used: &[bool],
    chain: &DictChain,
    steps: &mut Steps<L>,
) -> Result<Sought, AllocError>
    requires few { length closed.now < 2 ^ 32 }
    requires flags { length used.now ≡ length closed.now }
    ensures new { IfOk result (λ sought. sought.new.items ≡ new_flags (end_to_end chain.now) closed.now used.now) }
    ensures count { IfOk result (λ sought. length sought.found.items ≡ length closed.now) }
    ensures found { IfOk result (λ sought. AreFound (end_to_end chain.now) closed.now used.now sought.found.items) }
    ensures cost { IfOk result (λ _. steps.new ≤ steps.old + length closed.now * chain_steps chain.now) }
{
    let mut new = Vec::with_capacity(alloc, used.len())?;
    let mut found = Vec::with_capacity(alloc, used.len())?;
    for code in 0..closed.len() {
        let seen = look(closed.bytes(code), used[code as usize], chain, steps);
        new.push(seen.is_new)?;
        found.push(seen.code)?;
    }
    Ok(Sought { new, found })
}

/// The codes of the new keys, in the order of the keys.
fn new_codes(alloc: Global, closed: &UnsortedDict, new: &[bool]) -> Result<Vec<u32>, AllocError>
    requires few { length closed.now < 2 ^ 32 }
    requires flags { length new.now ≡ length closed.now }
    ensures within { IfOk result (λ codes. All (λ code. code < length closed.now) codes.items) }
    ensures exactly { IfOk result (λ codes. (code : ℕ) → code < length closed.now
        → Contains codes.items code ↔ (get_or new.now code false ≡ true)) }
    ensures ascending { IfOk result (λ codes. IsAscending (keys_at closed.now codes.items)) }
    ensures few { IfOk result (λ codes. length codes.items ≤ length closed.now) }
{
    let order = closed.order(alloc)?;
    let mut codes = Vec::new(alloc);
    for code in order.as_slice() {
        if new[*code as usize] {
            codes.push(*code)?;
        }
    }
    Ok(codes)
}

/// The dictionary of the new keys.
pub(crate) fn new_keys(
    alloc: Global,
    closed: &UnsortedDict,
    new: &[bool],
) -> Result<United, AllocError>
    requires few { length closed.now < 2 ^ 32 }
    requires flags { length new.now ≡ length closed.now }
    ensures { IfOk result (λ united. IsUnited [] [] closed.now new.now united.keys united.parts.items united.closed.items) }
{
    let codes = new_codes(alloc, closed, new)?;
    let mut keys = KeyList::new(alloc);
    let mut places = vec![in alloc; None; closed.len() as usize]?;
    for place in 0..codes.len() {
        let code = codes[place];
        keys.push(closed.bytes(code))?;
        places[code as usize] = Some(place as u32);
    }
    Ok(United {
        keys,
        parts: Vec::new(alloc),
        closed: places,
    })
}
