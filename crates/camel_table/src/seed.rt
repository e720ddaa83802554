use std::hash::{BuildHasher, FoldHasher, Hasher};
use std::io;
use std::random::RandomSource;

/// Makes the hashers of a table from a number. Whoever knows the number can choose IMSIs of one bucket, and look-ups of
/// these are slow then.
#[derive(Clone, Copy, Debug)]
pub struct Seed {
    hasher: FoldHasher,
}

impl Seed {
    /// The seed of this number.
    pub fn new(number: u64) -> Seed {
        let mut hasher = FoldHasher::default();
        hasher.write_u64(number);
        Seed { hasher }
    }

    /// A seed that everybody knows, for data that nobody chooses to do harm.
    pub fn fixed() -> Seed {
        Seed::new(0)
    }

    /// A seed that nobody knows, from the runtime's random source. Fails as that does.
    pub fn random(rt: &impl RandomSource) -> io::Result<Seed> {
        let mut octets = [0; 8];
        rt.fill_bytes(&mut octets)?;
        Ok(Seed::new(u64::from_le_bytes(octets)))
    }
}

impl BuildHasher for Seed {
    type Hasher = FoldHasher;

    ghost build_hasher = { λ seed. seed.hasher };

    fn build_hasher(&self) -> FoldHasher {
        self.hasher
    }
}
