//! Octets that are written from the last one to the first.

ghost use Rattle.std.specs.Prelude.{◌≡◌, ◌++◌, [], ◌∷◌, length, OnOk};

use std::marker::Model;

/// The most octets of an argument that [`encode`](crate::encode) appends. The argument of each update whose data are
/// those that the constructors keep has fewer: each of its two CSIs has at most one row and one entry of criteria for
/// each of its detection points.
pub const MAX_ARGUMENT_OCTETS: usize = 1198;

/// There is no place for another octet in front of those that are written.
#[derive(Clone, Copy, Debug)]
pub(crate) struct TooLong;

/// Octets of an argument, of which the last one is written first: the length of an element stands in front of its
/// contents, and is known when they are written. It takes no memory.
///
/// Contracts see the octets that are written so far.
#[derive(Drop)]
pub(crate) struct Writer {
    // The octets are from `start` on.
    room: [u8; MAX_ARGUMENT_OCTETS],
    start: usize,
}

impl Model for Writer {
    ghost use Rattle.std.specs.Prelude.{◌≤◌, ℕ, List, drop, length};

    ghost Value = { List ℕ };

    ghost view = { λ a. drop a.start a.room };

    ghost invariant = { λ a. a.start ≤ length a.room };
}

impl Writer {
    /// No octets.
    pub(crate) fn new() -> Writer
        ensures { result ≡ [] }
    {
        Writer {
            room: [0; MAX_ARGUMENT_OCTETS],
            start: MAX_ARGUMENT_OCTETS,
        }
    }

    /// How many octets are written.
    pub(crate) fn len(&self) -> usize
        ensures { result ≡ length self.now }
    {
        MAX_ARGUMENT_OCTETS - self.start
    }

    /// The octets that are written.
    pub(crate) fn as_slice(&self) -> &[u8]
        ensures { result.now ≡ self.now }
    {
        &self.room[self.start..]
    }

    /// Writes an octet in front of the others.
    pub(crate) fn put(&mut self, octet: u8) -> Result<(), TooLong>
        ensures { OnOk result (self.new ≡ octet ∷ self.old) }
    {
        if self.start == 0 {
            return Err(TooLong);
        }
        self.start -= 1;
        self.room[self.start] = octet;
        Ok(())
    }

    /// Writes octets in front of the others.
    pub(crate) fn put_all(&mut self, octets: &[u8]) -> Result<(), TooLong>
        ensures { OnOk result (self.new ≡ octets.now ++ self.old) }
    {
        if octets.len() > self.start {
            return Err(TooLong);
        }
        let end = self.start;
        self.start = end - octets.len();
        self.room[self.start..end].copy_from_slice(octets);
        Ok(())
    }
}
