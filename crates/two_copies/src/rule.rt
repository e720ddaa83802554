//! What a user says of the values that are shown.

/// Which values may be shown, and in which order. It is for the proof, and costs nothing: an implementing type needs no
/// value.
pub trait CopyRule<T> {
    /// What is true of each value that a look finds.
    ghost holds: { T → Type 0 };

    /// Whether the second value may be shown after the first. It is reflexive and transitive, so a reader never goes
    /// back: what a look finds follows what each look before it found.
    ghost follows: { T → T → Type 0 };

    ghost follows_itself: { (x : T) → follows x x };

    ghost follows_through: { (x y z : T) → follows x y → follows y z → follows x z };
}
