//! A std reader as a source.

ghost use Rattle.std.specs.Prelude.{◌≡◌, ◌<◌, ◌≤◌, List, Option, true, false, length, drop, IsSome, IfOk};
ghost use Rattle.std.specs.Io.KnownBytes.{ReadConsumes};
ghost use Rattle.nq_io.specs.Source.{Reads, CountsRead, faults_after};
ghost use Rattle.nq_io.specs.Known.{TellsKnown, told_where};
ghost use Rattle.nq_io.specs.StdSource.{PassesOn};

use crate::{Got, Source};
use std::io;
use std::io::Read;
use std::marker::Model;

// How many bytes are read at once where they are told.
const PIECE: usize = 256;

/// A std reader as a source. Each error of the reader is a fault. The count of faults stands still at `u64::MAX`.
#[derive(Drop)]
pub struct StdSource<R: Read> {
    reader: R,
    tells: bool,
    faults: u64,
}

impl<R: Read> Model for StdSource<R> {
    ghost use Rattle.nq_io.specs.Known.{TellsKnown};
    ghost use Rattle.nq_io.specs.StdSource.{CountedReader};

    ghost Value = { CountedReader R };

    ghost view = { λ s. record { reader = s.reader; tells = s.tells; faults = s.faults } };

    ghost invariant = { λ s. TellsKnown s.tells (R.remaining s.reader) };
}

impl<R: Read> StdSource<R> {
    /// A source of what the reader gives. It tells nothing of its bytes.
    pub fn new(reader: R) -> StdSource<R>
        ensures { result ≡ record { reader = reader; tells = false; faults = 0 } }
    {
        StdSource {
            reader,
            tells: false,
            faults: 0,
        }
    }

    /// A source of what a reader in memory gives. It tells the bytes that are left.
    pub fn in_memory(reader: R) -> StdSource<R>
        requires { IsSome (R.remaining reader) }
        ensures { result ≡ record { reader = reader; tells = true; faults = 0 } }
    {
        StdSource {
            reader,
            tells: true,
            faults: 0,
        }
    }

    // Reads once. A reader may write behind the bytes that it gives, so bytes that are told go through a piece aside.
    fn fill(&mut self, out: &mut [u8]) -> io::Result<usize>
        requires { 0 < length out.old }
        ensures known { TellsKnown self.old.tells (R.remaining self.old.reader) }
        ensures bound { IfOk result (λ n. n ≤ length out.old) }
        ensures bytes { ReadConsumes (R.remaining self.old.reader) (R.remaining self.new.reader) result out.new }
        ensures beyond { self.old.tells ≡ true → IfOk result (λ n. drop n out.new ≡ drop n out.old) }
        ensures tells { self.new.tells ≡ self.old.tells }
        ensures faults { self.new.faults ≡ self.old.faults }
    {
        if !self.tells {
            return self.reader.read(out);
        }
        let mut piece = [0; PIECE];
        let asked = out.len().min(PIECE);
        let count = self.reader.read(&mut piece[..asked])?;
        out[..count].copy_from_slice(&piece[..count]);
        Ok(count)
    }
}

impl<R: Read> Source for StdSource<R> {
    ghost left = { λ source. told_where source.tells (R.remaining source.reader) };

    ghost faults = { λ source. source.faults };

    #[tactic(auto, using(crate::proofs::Telling::told_kept, crate::proofs::Telling::told_gives, crate::proofs::Telling::told_ends))]
    fn read(&mut self, out: &mut [u8]) -> Got
        requires { 0 < length out.old }

        // As of any source.
        ensures reads { Reads result out.old out.new (told_where self.old.tells (R.remaining self.old.reader))
            (told_where self.new.tells (R.remaining self.new.reader)) }
        ensures cause { CountsRead result self.old.faults self.new.faults }

        // Of this one.
        ensures faults { self.new.faults ≡ faults_after result self.old.faults }
        ensures tells { self.new.tells ≡ self.old.tells }
        ensures bytes { PassesOn result out.new (R.remaining self.old.reader) (R.remaining self.new.reader) }
    {
        match self.fill(out) {
            Ok(0) => Got::End,
            Ok(count) => Got::Bytes(count),
            Err(_) => {
                self.faults = self.faults.saturating_add(1);
                Got::Failed
            }
        }
    }
}
