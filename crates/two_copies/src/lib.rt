//! Two copies of a value, one writer, and up to 64 readers: readers look at the copy that is shown, while the writer
//! changes the other and then shows that. No call waits, takes a lock or yields, so a static library may have it.
//!
//! Each reader has a *place* of its own, which it shares with the writer. A look takes the copy that lies in the place,
//! and a publication puts the other copy there. So a look is a step on a word that no other reader touches, and what it
//! touches lies on cache lines of its own. A look that is held keeps one copy: the next publication goes through, and
//! the one after it is [`Unpublished::Held`], which has changed nothing and may be tried again. A reader that does not
//! look holds nobody up.
//!
//! ```text
//! let mut copies = Copies::new(alloc, first, second)?;   // two values that are alike
//! let reader = copies.reader()?;                         // for another thread
//! copies.push(operation)?;
//! copies.publish()?;                                     // or Held
//! ```
//!
//! ```text
//! match reader.look() {
//!     Ok(look) => reader = look.leave(),                 // look.get() is the value
//!     Err(reader) => ..                                  // the copies have ended
//! }
//! ```
//!
//! A publication becomes visible reader by reader while `publish` runs, and to all of them when it returns. What a look
//! finds follows what the same reader found before ([`CopyRule`]); nothing relates what two readers find meanwhile.
//!
//! The writer has a share of each copy until the copies end, so no reader frees one before. [`Copies`] can't be
//! dropped: [`Copies::end`] ends it. No look that begins after the end finds a copy. Looks that are held go on, and
//! whoever leaves the last one at a copy frees it, unless the writer has kept it in an [`Ending`].
#![tactic(auto)]

mod apply;
mod copies;
mod ending;
mod log;
mod place;
mod places;
mod reader;
mod rule;

pub use apply::Apply;
pub use copies::{Copies, MAX_READERS, NoReader, Unpublished};
pub use ending::Ending;
pub use reader::{Look, Reader};
pub use rule::CopyRule;
