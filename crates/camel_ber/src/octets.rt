ghost use Rattle.std.specs.Prelude.{◌≡◌, ◌≤◌, ◌+◌, length};

/// Octets of an argument, and where they are in it.
///
/// A place is the number of octets of the argument before it, so it tells where a fault is in the whole.
#[derive(Clone, Copy, Debug)]
pub struct Octets<'a> {
    pub(crate) bytes: &'a [u8],
    pub(crate) end: usize,
    ghost within: { length bytes.now ≤ end },
}

impl<'a> Octets<'a> {
    ghost use Rattle.camel_ber.specs.Elements.{octets_data, place_of};

    /// A whole argument, which begins at place 0. It is borrowed.
    pub fn new(bytes: &'a [u8]) -> Octets<'a>
        ensures bytes { (octets_data result).bytes ≡ bytes.now }
        ensures end { (octets_data result).end ≡ length bytes.now }
    {
        Octets {
            bytes,
            end: bytes.len(),
        }
    }

    /// The octets, lent for as long as the argument is.
    pub fn bytes(&self) -> &'a [u8]
        ensures { result.now ≡ (octets_data self.now).bytes }
    {
        self.bytes
    }

    /// The place of the first octet: `end` less the number of octets.
    pub fn place(&self) -> usize
        ensures place { result ≡ place_of (octets_data self.now).end (octets_data self.now).bytes }
        ensures span { result + length (octets_data self.now).bytes ≡ (octets_data self.now).end }
    {
        self.end - self.bytes.len()
    }

    /// The place behind the last octet.
    pub fn end(&self) -> usize
        ensures { result ≡ (octets_data self.now).end }
    {
        self.end
    }
}
