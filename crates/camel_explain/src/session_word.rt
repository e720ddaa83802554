//! Words for the session, which are typed at a prompt. In a script they are none of its words.

/// What a word for the session asks for.
#[derive(Clone, Copy)]
pub(crate) enum SessionWord {
    /// What may be typed.
    Help,
    /// The end of the session.
    Quit,
}

/// The word for the session that a text is; None if it is none.
pub(crate) fn session_word_of(text: &[u8]) -> Option<SessionWord> {
    match text.trim_ascii() {
        b"help" | b"?" => Some(SessionWord::Help),
        b"quit" | b"exit" => Some(SessionWord::Quit),
        _ => None,
    }
}

/// What is printed before the first prompt.
pub(crate) const GREETING: &str = "help prints what may be typed; Ctrl-D ends the session\n";

/// What may be typed at a prompt, in short.
pub(crate) const HELP: &str = "   register,IMSI                        an empty record is stored
   insert,IMSI,ITEM,..                  an item is one of o:DP:KEY:SCF:HANDLING, t:DP:KEY:SCF:HANDLING,
                                        oc:DP:NUMBER:BASICS:TYPE:CAUSES, tc:DP:BASICS:CAUSES
   delete,IMSI,WHAT                     WHAT is o, vt or all
   cancel,IMSI                          no record is left
   clear                                no record of any subscriber is left
   publish                              calls see the updates so far
   call,2,IMSI,BASIC,DEST,TYPE          TYPE is f (forwarded) or n (not forwarded)
   call,4,IMSI,BASIC,DEST,TYPE,CAUSE
   call,12,IMSI,BASIC
   call,13,IMSI,BASIC,CAUSE             call,14 has this form, too
   show IMSI, show                      what is stored of a subscriber; how much is stored
   quit, exit                           the session ends, as by Ctrl-D
";
