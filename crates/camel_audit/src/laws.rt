ghost use Rattle.std.specs.Prelude.{ℕ, ◌≤◌, List};
ghost use Rattle.camel_audit.specs.Audit.{Passes, PassesInParts};
ghost use Rattle.camel_audit.specs.declared.transcript.Entry.{Entry};
ghost use Rattle.camel_tbcd.specs.declared.profile.Profile.{Profile};
ghost use Rattle.camel_rows.specs.declared.subscriber.update.Update.{Update};

/// A law of the definitions: what passes in each part passes. It does nothing when it is called.
pub fn parts_make_the_whole()
    ensures { (parts : ℕ) (profile : Profile) (updates : List Update) (transcripts : List (List Entry))
        → 1 ≤ parts → PassesInParts parts profile updates transcripts → Passes profile updates transcripts }
{}
