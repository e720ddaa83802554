use crate::history::prefix::Prefix;
use crate::published_copy::PublishedCopy;
use atomic_table::{Join, Split};
use crossbeam_utils::rule::{Outcome, Protocol};

/// What a session or the writer knows to be published: a front, which also says which store it is. No value of it is
/// made.
pub struct Known {
    pub front: Option<Prefix>,
}

/// The publication rule: what is known has been published, and only grows.
pub struct PublicationRule;

impl Protocol<PublishedCopy, Known> for PublicationRule {
    ghost use Rattle.camel_vlr.specs.Seat.{IsKept, newcomer};

    ghost holds = { IsKept };

    ghost first = { newcomer };
}

/// The step in which a session takes the copy that is published.
pub(crate) struct Looking;

impl Outcome<PublishedCopy, Known> for Looking {
    ghost use Rattle.camel_vlr.specs.Seat.{Looks};

    ghost then = { Looks };
}

/// The step in which the writer publishes a copy.
pub(crate) struct Publishing;

impl Outcome<PublishedCopy, Known> for Publishing {
    ghost use Rattle.camel_vlr.specs.Seat.{Publishes};

    ghost then = { Publishes };
}

/// The writer tells a new session what it knows itself, and so which store it is.
pub(crate) struct Introducing;

impl Split<Known> for Introducing {
    ghost left = { λ v. v };

    ghost right = { λ v. v };
}

impl Join<Known> for Introducing {
    ghost use Rattle.camel_vlr.specs.Seat.{newcomer};

    ghost both = { λ v w. w };

    ghost spent = { newcomer };
}
