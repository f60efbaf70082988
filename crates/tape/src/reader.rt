//! A reader of records that is fed in any pieces.

ghost use Rattle.std.specs.Prelude.{◌≡◌, ◌<◌, ◌≤◌, ◌++◌, ℕ, List, take, length, All, IfSome, IfOk, IfErr, OnOk, false, Ok};
ghost use Rattle.cluster_types.specs.Limits.{tape_limit};
ghost use Rattle.edges.specs.Reading.{Fails};
ghost use Rattle.tape.specs.Reading.{record_at};
ghost use Rattle.tape.specs.Spelling.{Fits};
ghost use Rattle.tape.specs.Tape.{Tape, blank, tape_after, records, fault, capped_place, listed};

use crate::reading::read_record;
use crate::record::{TapeRecord, TapeRecords};
use cluster_types::limits::TAPE_OCTETS;
use edges::stop::{ReadError, Stop};
use std::alloc::{AllocError, Global};
use std::marker::Model;

/// What has come of a tape. At least `left` octets are missing to the record that is unfinished.
#[derive(Drop)]
pub struct TapeReader {
    at: u64,
    rest: Vec<u8>,
    left: usize,
    ended: bool,
}

impl Model for TapeReader {
    ghost use Rattle.std.specs.Prelude.{◌≡◌, ◌≤◌, false, Err};
    ghost use Rattle.cluster_types.specs.Limits.{tape_limit};
    ghost use Rattle.edges.specs.declared.stop.Stop.TheVariants.{Short};
    ghost use Rattle.tape.specs.Reading.{record_at};
    ghost use Rattle.tape.specs.Tape.{Tape};

    ghost Value = { Tape };

    ghost view = { λ t. record { at = t.at; rest = t.rest.items; ended = t.ended } };

    ghost invariant = { λ t. (t.at ≤ tape_limit) × (t.ended ≡ false → record_at t.rest.items ≡ Err (Short t.left)) };
}

impl TapeReader {
    /// A reader of a tape of which nothing has come. It takes no memory.
    #[tactic(auto, unfolding(crate::specs::Reading::record_at))]
    pub fn new(alloc: Global) -> TapeReader
        ensures { result ≡ blank }
    {
        TapeReader {
            at: 0,
            rest: Vec::new(alloc),
            left: 1,
            ended: false,
        }
    }

    /// Whether a record can't stand where the next one should.
    pub fn ended(&self) -> bool
        ensures { result ≡ self.now.ended }
    {
        self.ended
    }

    /// The place of the first record that is not whole, where the tape ends here.
    pub fn fault(&self) -> Option<u64>
        ensures { result ≡ fault self.now }
    {
        if self.ended {
            return Some(self.at);
        }
        if self.rest.is_empty() {
            return None;
        }
        Some(self.at)
    }

    /// Takes as many octets as are missing, or all that are there, and says how many, and the record that they end.
    fn take_open(&mut self, piece: &[u8]) -> Result<(usize, Option<TapeRecord>), AllocError>
        requires some { 0 < length piece.now }
        requires goes { self.old.ended ≡ false }
        ensures count { IfOk result (λ r. (0 < r.0) × (r.0 ≤ length piece.now)) }
        ensures after { IfOk result (λ r. self.new ≡ tape_after self.old (take r.0 piece.now)) }
        ensures records { IfOk result (λ r. listed r.1 ≡ records self.old (take r.0 piece.now)) }
        ensures fits { IfOk result (λ r. IfSome r.1 Fits) }
    {
        let alloc = *self.rest.allocator();
        let n = piece.len().min(self.left);
        self.rest.extend_from_slice(&piece[..n])?;
        if n < self.left {
            self.left -= n;
            return Ok((n, None));
        }
        match first_record(alloc, self.rest.as_slice()) {
            Ok(record) => {
                self.at = placed(self.at, self.rest.as_slice().len());
                self.rest.clear();
                self.left = 1;
                Ok((n, Some(record)))
            }
            Err(ReadError::Stop(Stop::Short(k))) => {
                self.left = k;
                Ok((n, None))
            }
            Err(ReadError::Stop(Stop::Bad)) => {
                self.ended = true;
                Ok((n, None))
            }
            Err(ReadError::OutOfMemory) => {
                self.ended = true;
                Err(AllocError)
            }
        }
    }

    /// Takes some octets, adds the record that they end, and says how many.
    fn take(&mut self, list: &mut TapeRecords, piece: &[u8]) -> Result<usize, AllocError>
        requires { 0 < length piece.now }
        ensures count { IfOk result (λ n. (0 < n) × (n ≤ length piece.now)) }
        ensures after { IfOk result (λ n. self.new ≡ tape_after self.old (take n piece.now)) }
        ensures records { IfOk result (λ n. list.new ≡ list.old ++ records self.old (take n piece.now)) }
        ensures fits { All Fits list.old → OnOk result (All Fits list.new) }
    {
        if self.ended {
            return Ok(piece.len());
        }
        let (n, record) = self.take_open(piece)?;
        push_some(list, record)?;
        Ok(n)
    }

    /// Takes the next piece of the tape, and gives the records that it ends.
    pub fn feed(&mut self, piece: &[u8]) -> Result<TapeRecords, AllocError>
        ensures after { OnOk result (self.new ≡ tape_after self.old piece.now) }
        ensures records { IfOk result (λ list. list ≡ records self.old piece.now) }
        ensures fits { IfOk result (λ list. All Fits list) }
    {
        let mut list = TapeRecords::new(*self.rest.allocator());
        let mut at: usize = 0;
        while at < piece.len() {
            let n = self.take(&mut list, &piece[at..])?;
            at += n;
        }
        Ok(list)
    }
}

/// Adds a record, where there is one.
fn push_some(list: &mut TapeRecords, item: Option<TapeRecord>) -> Result<(), AllocError>
    ensures list { OnOk result (list.new ≡ list.old ++ listed item) }
    ensures fits { All Fits list.old → IfSome item Fits → OnOk result (All Fits list.new) }
{
    if let Some(item) = item {
        list.push(item)?;
    }
    Ok(())
}

/// The place so many octets on.
fn placed(at: u64, n: usize) -> u64
    requires { at ≤ tape_limit }
    ensures { result ≡ capped_place at n }
{
    at.saturating_add(n as u64).min(TAPE_OCTETS)
}

/// The record at the front.
fn first_record(alloc: Global, octets: &[u8]) -> Result<TapeRecord, ReadError>
    ensures ok { IfOk result (λ r. (rest : List ℕ) × (record_at octets.now ≡ Ok (r, rest))) }
    ensures fits { IfOk result Fits }
    ensures err { IfErr result (λ e. Fails e (record_at octets.now)) }
{
    match read_record(alloc, octets) {
        Ok((record, _)) => Ok(record),
        Err(error) => Err(error),
    }
}
