ghost use Rattle.camel_script_replay.specs.Output.{PublishedGrows, PublishedIsFront};

/// A law of every replay, whatever its records: what is published after some of them is a front, and what is published
/// later extends it. A call does nothing; its contract is the law.
pub fn published_fronts()
    ensures front { PublishedIsFront }
    ensures grows { PublishedGrows }
{}
