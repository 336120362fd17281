//! Frames that come in pieces.
ghost use Rattle.std.specs.Prelude.{◌≡◌, ◌++◌, [], IfOk, OnOk, OnErr};
ghost use Rattle.ut_stream.specs.Fronts.{Hears};

use crate::front::{Front, HEADER_LEN, front_of};
use crate::payload::entries_in;
use std::alloc::{AllocError, Global};
use std::marker::Model;
use ut_value::{Entry, Seq};

/// What was heard next.
#[derive(Drop)]
pub enum Heard {
    /// It can't be said yet: feed more.
    More,
    /// The entries of the next frame, which is there in full.
    Frame(Seq<Entry>),
    /// The closed gate.
    End,
    /// What comes next is no frame.
    Bad,
}

/// The bytes that were fed and not yet handed out as frames.
#[derive(Drop)]
pub struct Frames {
    bytes: Vec<u8>,
    /// So many of them were handed out.
    at: usize,
}

impl Model for Frames {
    ghost use Rattle.std.specs.Prelude.{ℕ, ◌≤◌, List, drop, vec_len};

    ghost Value = { List ℕ };

    ghost view = { λ f. drop f.at f.bytes.items };

    ghost invariant = { λ f. f.at ≤ vec_len f.bytes };
}

impl Frames {
    /// Nothing was fed.
    pub fn new(alloc: Global) -> Frames
        ensures { result ≡ [] }
    {
        Frames {
            bytes: Vec::new(alloc),
            at: 0,
        }
    }

    /// Some bytes more.
    #[tactic(auto, using(crate::proofs::FeedLemmas::fed_whole, crate::proofs::FeedLemmas::fed_rest))]
    pub fn feed(&mut self, alloc: Global, piece: &[u8]) -> Result<(), AllocError>
        ensures ok { OnOk result (self.new ≡ self.old ++ piece.now) }
        ensures err { OnErr result (self.new ≡ self.old) }
    {
        if self.at == 0 {
            return self.bytes.extend_from_slice(piece);
        }
        let mut bytes = Vec::from_slice(alloc, &self.bytes[self.at..])?;
        bytes.extend_from_slice(piece)?;
        self.bytes = bytes;
        self.at = 0;
        Ok(())
    }

    /// The next frame, once it is there in full.
    pub fn next(&mut self, alloc: Global) -> Result<Heard, AllocError>
        ensures ok { IfOk result (λ heard. Hears self.old heard self.new) }
        ensures err { OnErr result (self.new ≡ self.old) }
    {
        match front_of(&self.bytes[self.at..]) {
            Front::Short => Ok(Heard::More),
            Front::Closed => Ok(Heard::End),
            Front::Off => Ok(Heard::Bad),
            Front::Whole(len) => {
                let start = self.at + HEADER_LEN;
                match entries_in(alloc, &self.bytes[start..start + len])? {
                    None => Ok(Heard::Bad),
                    Some(entries) => {
                        self.at = start + len;
                        Ok(Heard::Frame(entries))
                    }
                }
            }
        }
    }
}
