//! The own dictionary of a column, from bytes.
ghost use Rattle.std.specs.Prelude.{◌≡◌, ◌≢◌, ℕ, List, ◌≤◌, ◌++◌, ◌↔◌, length, IsTrue, IfOk, IfSome, IfNone};
ghost use Rattle.ut_prefix.specs.Chain.{LacksAll};
ghost use Rattle.ut_prefix.specs.Spelling.{dict_bytes, IsDictionary};
ghost use Rattle.ut_main.specs.Spelling.{is_key, AreKeys};
ghost use Rattle.ut_main.specs.Reading.{MayBeOwn};

use std::alloc::{AllocError, Global};
use std::sync::ledger::Ledger;
use ut_key::Steps;
use ut_prefix::{DictChain, PrefixDict};
use ut_value::{Kind, is_text};

/// How many bytes the key of a number has.
const INT_KEY_LEN: usize = 8;

// Whether bytes are a key of a kind.
fn is_key(kind: Kind, bytes: &[u8]) -> bool
    ensures { result ≡ is_key kind bytes.now }
{
    match kind {
        Kind::Int => bytes.len() == INT_KEY_LEN,
        Kind::Text => is_text(bytes),
    }
}

// Whether the keys of a dictionary are of a kind.
fn are_keys<L: Ledger>(kind: Kind, dict: &PrefixDict, steps: &mut Steps<L>) -> bool
    ensures { IsTrue result ↔ AreKeys kind dict.now }
{
    for code in 0..dict.len() {
        if !is_key(kind, dict.get(code, steps).as_slice()) {
            return false;
        }
    }
    true
}

// Whether a dictionary may be the own one of so many rows behind a chain.
fn may_be_own<L: Ledger>(
    rows: u32,
    kind: Kind,
    chain: &DictChain,
    dict: &PrefixDict,
    steps: &mut Steps<L>,
) -> bool
    ensures own { IsTrue result ↔ MayBeOwn rows kind chain.now dict.now }
    ensures dictionary { IsDictionary dict.now }
{
    if rows < dict.len() {
        return false;
    }
    if !are_keys(kind, dict, steps) {
        return false;
    }
    chain.lacks_all(dict, steps)
}

/// The own dictionary that begins the bytes, and what stands behind it.
pub(crate) fn own_from<'a, L: Ledger>(
    alloc: Global,
    bytes: &'a [u8],
    rows: u32,
    kind: Kind,
    chain: &DictChain,
    steps: &mut Steps<L>,
) -> Result<Option<(PrefixDict, &'a [u8])>, AllocError>
    ensures some { IfOk result (λ found. IfSome found (λ r.
        MayBeOwn rows kind chain.now r.0 × (bytes.now ≡ dict_bytes r.0 ++ r.1.now))) }
    ensures none { IfOk result (λ found. IfNone found (
        (keys : List (List ℕ)) (rest : List ℕ)
        → MayBeOwn rows kind chain.now keys → bytes.now ≢ dict_bytes keys ++ rest)) }
{
    match PrefixDict::from_bytes(alloc, bytes)? {
        Some((dict, size)) => {
            if may_be_own(rows, kind, chain, &dict, steps) {
                Ok(Some((dict, &bytes[size..])))
            } else {
                Ok(None)
            }
        }
        None => Ok(None),
    }
}
