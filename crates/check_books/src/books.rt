//! A crowd's book, followed turn by turn on the slow store.
use crate::runs::Left;
use check_oracle::Oracle;
use check_run::saved::QUESTION;
use check_scripts::Answers;
use std::alloc::{AllocError, Global};

/// Ids enough for any book.
const AMPLE: u32 = 1_000_000;

/// What a turn of a book is.
#[derive(Clone, Copy, Debug, PartialEq, Eq)]
enum Turn {
    /// It is answered as the slow store answers it.
    Told,
    /// There was no memory for it, and it may be wanting there.
    Refused,
    /// The disk failed in it.
    Fault,
    /// There is none: the book has ended.
    End,
    /// The book ends within it.
    Cut,
    /// It is no turn, or is answered otherwise.
    Wrong,
}

/// The slow store behind some turns of a book, and the rest of the book.
struct Follower<'a> {
    rest: &'a [u8],
    /// So many lines have no session that can be read. They come first.
    strangers: usize,
    store: Oracle,
    /// The store without the turn in which the disk failed.
    before: Option<Oracle>,
}

// One step of a proof, wherever one is dropped.
impl<'a> Drop for Follower<'a> {
    fn drop(self) {
        let Follower {
            rest: _,
            strangers: _,
            store: _,
            before: _,
        } = self;
    }
}

impl<'a> Follower<'a> {
    fn new(alloc: Global, book: &'a [u8], strangers: usize) -> Result<Follower<'a>, AllocError> {
        Ok(Follower {
            rest: book,
            strangers,
            store: Oracle::new(alloc, AMPLE)?,
            before: None,
        })
    }

    /// Follows one turn.
    fn follow(&mut self, alloc: Global) -> Result<Turn, AllocError> {
        if self.rest.is_empty() {
            return Ok(Turn::End);
        }
        let Some((line, rest)) = asked(self.rest) else {
            return Ok(without_a_line(self.rest));
        };
        self.rest = rest;
        if self.strangers > 0 {
            self.strangers = self.strangers.saturating_sub(1);
            return Ok(self.pass(b"? refused syntax\n", Turn::Told));
        }
        self.answer(alloc, line)
    }

    /// Follows the answer to a line.
    fn answer(&mut self, alloc: Global, line: &[u8]) -> Result<Turn, AllocError> {
        if self.goes_on(alloc, line, b" refused memory\n")? {
            let turn = lacking(line);
            return self.leave(alloc, line, b" refused memory\n", turn);
        }
        if self.goes_on(alloc, line, b" fault disk\n")? {
            self.keep_before(alloc)?;
            let turn = self.fault(alloc, line)?;
            return self.leave(alloc, line, b" fault disk\n", turn);
        }
        let told = self.told(alloc, line)?;
        Ok(self.pass(&told, Turn::Told))
    }

    /// Whether the book goes on with such a reply to a line.
    fn goes_on(&self, alloc: Global, line: &[u8], text: &[u8]) -> Result<bool, AllocError> {
        let reply = reply_to(alloc, line, text)?;
        Ok(self.rest.starts_with(&reply))
    }

    /// Goes on behind such a reply.
    fn leave(
        &mut self,
        alloc: Global,
        line: &[u8],
        text: &[u8],
        turn: Turn,
    ) -> Result<Turn, AllocError> {
        let reply = reply_to(alloc, line, text)?;
        Ok(self.pass(&reply, turn))
    }

    /// Keeps the store as it is, before a turn in which the disk fails.
    fn keep_before(&mut self, alloc: Global) -> Result<(), AllocError> {
        let before = self.store.reopened(alloc, AMPLE)?;
        self.before = Some(before);
        Ok(())
    }

    /// A turn in which the disk failed. A line that is refused calls no disk.
    fn fault(&mut self, alloc: Global, line: &[u8]) -> Result<Turn, AllocError> {
        let told = self.told(alloc, line)?;
        failed(alloc, line, &told)
    }

    /// Follows all turns: how many they are, and how many of them were refused, if the book is told to its end.
    fn follow_all(&mut self, alloc: Global) -> Result<Option<(usize, usize)>, AllocError> {
        let mut turns: usize = 0;
        let mut refused: usize = 0;
        for _ in 0..=self.rest.len() {
            match self.follow(alloc)? {
                Turn::End => return Ok(Some((turns, refused))),
                Turn::Told => {}
                Turn::Refused => refused = refused.saturating_add(1),
                Turn::Fault if self.rest.is_empty() => {}
                Turn::Fault | Turn::Cut | Turn::Wrong => return Ok(None),
            }
            turns = turns.saturating_add(1);
        }
        Ok(None)
    }

    /// Whether all turns are told, but for the last, which may be cut.
    fn is_front(&mut self, alloc: Global) -> Result<bool, AllocError> {
        for _ in 0..=self.rest.len() {
            match self.follow(alloc)? {
                Turn::Told => {}
                Turn::End | Turn::Cut => return Ok(true),
                Turn::Refused | Turn::Fault | Turn::Wrong => return Ok(false),
            }
        }
        Ok(false)
    }

    /// What the store answers to the question behind none, one, two and all turns, if each is told.
    fn lefts(&mut self, alloc: Global, lefts: &mut Vec<Vec<u8>>) -> Result<bool, AllocError> {
        for _ in 0..=self.rest.len() {
            lefts.push(left_of(alloc, &self.store)?)?;
            match self.follow(alloc)? {
                Turn::Told => {}
                Turn::End => return Ok(true),
                _ => return Ok(false),
            }
        }
        Ok(false)
    }

    /// What the slow store answers.
    fn told(&mut self, alloc: Global, line: &[u8]) -> Result<Vec<u8>, AllocError> {
        let mut told = Vec::new(alloc);
        self.store.answer(alloc, line, &mut told)?;
        Ok(told)
    }

    /// Goes on behind a reply.
    fn pass(&mut self, reply: &[u8], turn: Turn) -> Turn {
        match self.rest.strip_prefix(reply) {
            Some(rest) => {
                self.rest = rest;
                turn
            }
            None if reply.starts_with(self.rest) => Turn::Cut,
            None => Turn::Wrong,
        }
    }
}

/// What a store answers to the question that is opened again.
fn left_of(alloc: Global, store: &Oracle) -> Result<Vec<u8>, AllocError> {
    let mut again = store.reopened(alloc, AMPLE)?;
    let mut left = Vec::new(alloc);
    for line in QUESTION.split(|byte| *byte == b'\n') {
        again.answer(alloc, line, &mut left)?;
    }
    Ok(left)
}

/// A turn whose line isn't whole.
fn without_a_line(turn: &[u8]) -> Turn {
    let is_arrow = turn.starts_with(b"> ") || b"> ".starts_with(turn);
    if is_arrow && !turn.contains(&b'\n') {
        Turn::Cut
    } else {
        Turn::Wrong
    }
}

/// The line that a turn begins with, and what stands behind it.
fn asked(book: &[u8]) -> Option<(&[u8], &[u8])> {
    let turn = book.strip_prefix(b"> ")?;
    let line = turn.split(|byte| *byte == b'\n').next()?;
    let rest = turn.strip_prefix(line)?.strip_prefix(b"\n")?;
    Some((line, rest))
}

/// A reply to a line, which has this text behind its session.
fn reply_to(alloc: Global, line: &[u8], text: &[u8]) -> Result<Vec<u8>, AllocError> {
    let session = line.split(|byte| *byte == b' ').next().unwrap_or(b"?");
    let mut reply = Vec::from_slice(alloc, session)?;
    reply.extend_from_slice(text)?;
    Ok(reply)
}

/// A line that was refused for want of memory. What ends a transaction takes none, and no statement of a savepoint but its begin.
fn lacking(line: &[u8]) -> Turn {
    let mut words = line.split(|byte| *byte == b' ').skip(1);
    let first = words.next().unwrap_or(b"");
    let is_ending = first == b"commit".as_slice() || first == b"abort".as_slice();
    let is_saving = first == b"save".as_slice() && words.next() != Some(b"begin".as_slice());
    if is_ending || is_saving {
        Turn::Wrong
    } else {
        Turn::Refused
    }
}

/// What a book came to: what its store answers to the question that is opened again.
pub struct Outcome {
    pub turns: usize,
    /// So many of them were refused for want of memory.
    pub refused: usize,
    with: Vec<u8>,
    /// The same without the last turn, where the disk failed in it.
    without: Option<Vec<u8>>,
}

// One step of a proof, wherever one is dropped.
impl Drop for Outcome {
    fn drop(self) {
        let Outcome {
            turns: _,
            refused: _,
            with: _,
            without: _,
        } = self;
    }
}

impl Outcome {
    /// Whether the disk failed in the last turn.
    pub fn is_open(&self) -> bool {
        self.without.is_some()
    }

    /// Whether a disk has what the book tells. What is made before the first turn may not be made.
    pub fn is_left(&self, left: &Left) -> bool {
        match left {
            Left::NoStore => self.turns == 0,
            Left::Answers(answer) => self.is_answered(answer),
            Left::Else => false,
        }
    }

    fn is_answered(&self, answer: &[u8]) -> bool {
        let is_without = match &self.without {
            Some(without) => without.as_slice() == answer,
            None => false,
        };
        is_without || self.with.as_slice() == answer
    }
}

/// What a book came to, if each of its turns is told as the slow store tells it. The disk may have failed in the last one, and a turn
/// may be refused where memory is wanting.
pub fn outcome_of(
    alloc: Global,
    book: &[u8],
    strangers: usize,
) -> Result<Option<Outcome>, AllocError> {
    let mut follower = Follower::new(alloc, book, strangers)?;
    match follower.follow_all(alloc)? {
        Some((turns, refused)) => ended(alloc, &follower, turns, refused),
        None => Ok(None),
    }
}

fn ended(
    alloc: Global,
    follower: &Follower<'_>,
    turns: usize,
    refused: usize,
) -> Result<Option<Outcome>, AllocError> {
    let with = left_of(alloc, &follower.store)?;
    let without = match &follower.before {
        Some(store) => Some(left_of(alloc, store)?),
        None => None,
    };
    Ok(Some(Outcome {
        turns,
        refused,
        with,
        without,
    }))
}

/// A line in which the disk failed. One that is refused calls no disk.
fn failed(alloc: Global, line: &[u8], told: &[u8]) -> Result<Turn, AllocError> {
    let refusal = reply_to(alloc, line, b" refused ")?;
    Ok(if told.starts_with(&refusal) {
        Turn::Wrong
    } else {
        Turn::Fault
    })
}

/// What the store of a book answers to the question that is opened again behind none, one, two and all of its turns. There is
/// nothing where a turn isn't told as the slow store tells it.
pub fn lefts_of(alloc: Global, book: &[u8]) -> Result<Option<Vec<Vec<u8>>>, AllocError> {
    let mut follower = Follower::new(alloc, book, 0)?;
    let mut lefts = Vec::new(alloc);
    let is_told = follower.lefts(alloc, &mut lefts)?;
    Ok(if is_told { Some(lefts) } else { None })
}

/// Whether these are the bytes of a book up to some byte.
pub fn is_front(alloc: Global, book: &[u8], strangers: usize) -> Result<bool, AllocError> {
    let mut follower = Follower::new(alloc, book, strangers)?;
    follower.is_front(alloc)
}

/// The lines of a text that begin so, without the mark that they begin with.
fn marked(alloc: Global, text: &[u8], mark: &[u8], behind: &[u8]) -> Result<Vec<u8>, AllocError> {
    let mut lines = Vec::new(alloc);
    for line in text.split(|byte| *byte == b'\n') {
        if let Some(rest) = line.strip_prefix(mark) {
            if rest.starts_with(behind) {
                lines.extend_from_slice(rest)?;
                lines.push(b'\n')?;
            }
        }
    }
    Ok(lines)
}

/// How much of the lines of its sessions a book has.
#[derive(Clone, Copy, Debug, PartialEq, Eq)]
pub enum Share {
    All,
    /// Of each session the first ones.
    Front,
    /// Another order, or lines that weren't there.
    Else,
}

/// How much of the lines a book has.
pub fn share_of(alloc: Global, lines: &[u8], book: &[u8]) -> Result<Share, AllocError> {
    let mut share = Share::All;
    for session in 1..17 {
        let mark = format!(in alloc; "{session} ")?;
        let own = marked(alloc, lines, b"", mark.as_bytes())?;
        let had = marked(alloc, book, b"> ", mark.as_bytes())?;
        if !own.as_slice().starts_with(&had) {
            return Ok(Share::Else);
        }
        if own.len() != had.len() {
            share = Share::Front;
        }
    }
    Ok(share)
}
