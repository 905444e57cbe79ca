//! Readers and writers of each of whose calls it can be said that it was made, and what it answered.

ghost use Rattle.std.specs.Prelude.{ℕ, List, Option, Result, ⊤};
ghost use Rattle.std.specs.Io.{ReadsAtMost, WritesAtMost};
ghost use Rattle.std.specs.Io.KnownBytes.{ReadConsumes, WriteAppends};
ghost use Rattle.std.specs.declared.io.Error.{Error};

use std::io::{self, Read, Write};

/// A reader. Whoever calls one of which nothing else is known has `gives` of the answer by the call alone: so a clause
/// that says `gives` says that the reader was called, and what it answered.
pub trait Source {
    // The bytes that are left, where they are known.
    ghost remaining: { Self → Option (List ℕ) };

    // This reader, called once, answers this, with these bytes in the buffer, and is then that reader.
    ghost gives: { Self → Result ℕ Error → List ℕ → Self → Type 0 };

    /// Reads once into a buffer.
    fn give(&mut self, buf: &mut [u8]) -> io::Result<usize>
        ensures called { gives self.old result buf.new self.new }
        ensures bound { ReadsAtMost result buf.new }
        ensures bytes { ReadConsumes (remaining self.old) (remaining self.new) result buf.new };
}

/// A writer. As of a reader, a clause that says `takes` says that the writer was called, and what it answered.
pub trait Sink {
    // The bytes that it holds, where they are known.
    ghost contents: { Self → Option (List ℕ) };

    // This writer, called once with this piece, answers this, and is then that writer.
    ghost takes: { Self → List ℕ → Result ℕ Error → Self → Type 0 };

    /// Writes a piece once.
    fn accept(&mut self, piece: &[u8]) -> io::Result<usize>
        ensures called { takes self.old piece.now result self.new }
        ensures bound { WritesAtMost result piece.now }
        ensures bytes { WriteAppends (contents self.old) (contents self.new) result piece.now };
}

impl<R: Read> Source for R {
    ghost remaining = { R.Read.remaining };

    ghost gives = { λ old answer bytes new. ⊤ };

    fn give(&mut self, buf: &mut [u8]) -> io::Result<usize> {
        self.read(buf)
    }
}

impl<W: Write> Sink for W {
    ghost contents = { W.Write.contents };

    ghost takes = { λ old piece answer new. ⊤ };

    fn accept(&mut self, piece: &[u8]) -> io::Result<usize> {
        self.write(piece)
    }
}
