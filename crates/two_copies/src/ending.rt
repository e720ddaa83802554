//! The end of the copies.
ghost use Rattle.std.specs.Prelude.{◌≡◌, All, IfErr, MatchResult, length};
ghost use Rattle.std.specs.Arc.{arc_value};
ghost use Rattle.two_copies.specs.WriterEnd.{IsClosedAt};

use crate::places::Places;
use crate::rule::CopyRule;
use std::alloc::Global;
use std::sync::Arc;

/// Copies whose end a look holds up. Looks that are held go on, and each look that begins later finds that the copies
/// have ended. It can't be dropped: [`Ending::end`] ends it, and [`Ending::abandon`] leaves it to the looks.
pub struct Ending<T: Drop, F: CopyRule<T>> {
    shown: Arc<T, Global>,
    spare: Arc<T, Global>,
    places: Places<T, F>,
    ghost closed: { ∥ All IsClosedAt places.items ∥₁ },
}

impl<T: Drop, F: CopyRule<T>> Ending<T, F> {
    ghost use Rattle.two_copies.specs.Copies.{closed_count, value_of};

    pub(crate) fn new(
        shown: Arc<T, Global>,
        spare: Arc<T, Global>,
        places: Places<T, F>,
    ) -> Ending<T, F>
        requires { All IsClosedAt places.items }
        ensures value { value_of result ≡ arc_value shown }
        ensures closed { closed_count result ≡ length places.items }
    {
        Ending {
            shown,
            spare,
            places,
        }
    }

    /// Ends the copies, if no look is held any more, and returns the value that was shown last. It does not wait,
    /// takes no memory, and touches no place.
    pub fn end(self) -> Result<T, Ending<T, F>>
        ensures value { MatchResult result (λ value. value ≡ value_of self)
            (λ ending. value_of ending ≡ value_of self) }
        ensures closed { IfErr result (λ ending. closed_count ending ≡ closed_count self) }
    {
        match self.into_value() {
            Ok((value, places)) => {
                drop(places);
                Ok(value)
            }
            Err(ending) => Err(ending),
        }
    }

    /// The value that was shown last, with the places, if no look is held any more. Each place is closed either way.
    fn into_value(self) -> Result<(T, Places<T, F>), Ending<T, F>>
        ensures value { MatchResult result (λ r. r.0 ≡ value_of self) (λ ending. value_of ending ≡ value_of self) }
        ensures count { MatchResult result (λ r. length r.1.items ≡ closed_count self)
            (λ ending. closed_count ending ≡ closed_count self) }
        ensures closed { MatchResult result (λ r. ∥ All IsClosedAt r.1.items ∥₁)
            (λ ending. ∥ All IsClosedAt ending.places.items ∥₁) }
    {
        // Each place is closed, so only a look that is held has a further share, and no new look gets one.
        if Arc::strong_count(&self.spare) != 1 {
            return Err(self);
        }
        let Ending {
            shown,
            spare,
            places,
        } = self;
        match Arc::try_unwrap(shown) {
            Ok(value) => Ok((value, places)),
            Err(shown) => Err(Ending {
                shown,
                spare,
                places,
            }),
        }
    }

    /// Leaves the copies to the looks that are held: whoever leaves the last look at a copy frees it. It has no clause,
    /// since it gives nothing.
    pub fn abandon(self) {
        let Ending {
            shown: _shown,
            spare: _spare,
            places: _places,
        } = self;
    }
}
