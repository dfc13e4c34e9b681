//! Readers and writers that remember whether a call failed or found the end.

ghost use Rattle.std.specs.Prelude.{◌≡◌, ◌||◌, Bool, true, false, is_err, OnOk};
ghost use Rattle.std.specs.Io.KnownBytes.{ReadConsumes, WriteAppends, Appends, Keeps};
ghost use Rattle.std.specs.Io.{ReadsAtMost, WritesAtMost};
ghost use Rattle.zerotrie_session.specs.Noted.{found_end};

use std::io;
use std::io::{Read, Write};
use std::marker::Model;

/// A reader or writer with two flags: its first error sets one, and the first read at the end the
/// other.
///
/// ```text
/// let mut reader = Noted::new(stdin);
/// let count = reader.read(&mut buffer);   // as stdin's own
/// reader.failed()                         // whether some call has failed
/// reader.ended()                          // whether some read has found the end
/// ```
#[derive(Debug, Drop)]
pub struct Noted<T> {
    inner: T,
    failed: bool,
    ended: bool,
}

impl<T> Model for Noted<T> {
    ghost use Rattle.zerotrie_session.specs.Noted.{Watched};

    ghost Value = { Watched T };

    ghost view = { λ n. record { inner = n.inner; failed = n.failed; ended = n.ended } };
}

impl<T> Noted<T> {
    /// Returns it with no error and no end so far.
    pub fn new(inner: T) -> Self
        ensures inner { result.inner ≡ inner }
        ensures failed { result.failed ≡ false }
        ensures ended { result.ended ≡ false }
    {
        Noted {
            inner,
            failed: false,
            ended: false,
        }
    }

    /// Returns whether some call failed.
    pub fn failed(&self) -> bool
        ensures { result ≡ self.now.failed }
    {
        self.failed
    }

    /// Returns whether some read found the end.
    pub fn ended(&self) -> bool
        ensures { result ≡ self.now.ended }
    {
        self.ended
    }

    /// Returns the reader or writer itself.
    pub fn into_inner(self) -> T
        ensures { result ≡ self.inner }
    {
        let Noted { inner, .. } = self;
        inner
    }
}

impl<R: Read> Read for Noted<R> {
    ghost remaining = { λ n. R.remaining n.inner };

    fn read(&mut self, buf: &mut [u8]) -> io::Result<usize>
        ensures bound { ReadsAtMost result buf.new }
        ensures bytes { ReadConsumes (R.remaining self.old.inner) (R.remaining self.new.inner)
            result buf.new }
        ensures flag { self.new.failed ≡ (self.old.failed || is_err result) }
        ensures ended { self.new.ended ≡ (self.old.ended || found_end result buf.new) }
    {
        let has_room = !buf.is_empty();
        let outcome = self.inner.read(buf);
        self.failed |= outcome.is_err();
        self.ended |= has_room && matches!(outcome, Ok(0));
        outcome
    }
}

impl<W: Write> Write for Noted<W> {
    ghost contents = { λ n. W.contents n.inner };

    fn write(&mut self, buf: &[u8]) -> io::Result<usize>
        ensures bound { WritesAtMost result buf.now }
        ensures bytes { WriteAppends (W.contents self.old.inner) (W.contents self.new.inner) result
            buf.now }
        ensures flag { self.new.failed ≡ (self.old.failed || is_err result) }
    {
        let outcome = self.inner.write(buf);
        self.failed |= outcome.is_err();
        outcome
    }

    fn flush(&mut self) -> io::Result<()>
        ensures bytes { Keeps (W.contents self.old.inner) (W.contents self.new.inner) }
        ensures flag { self.new.failed ≡ (self.old.failed || is_err result) }
    {
        let outcome = self.inner.flush();
        self.failed |= outcome.is_err();
        outcome
    }

    fn write_all(&mut self, buf: &[u8]) -> io::Result<()>
        ensures bytes { OnOk result
            (Appends (W.contents self.old.inner) (W.contents self.new.inner) buf.now) }
        ensures flag { self.new.failed ≡ (self.old.failed || is_err result) }
    {
        let outcome = self.inner.write_all(buf);
        self.failed |= outcome.is_err();
        outcome
    }
}
