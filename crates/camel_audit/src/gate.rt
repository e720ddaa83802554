ghost use Rattle.std.specs.Prelude.{◌≡◌, true};

/// What workers and the writer ask before they go on. Threads share it. Each of its calls has to return.
pub trait Gate: Sync {
    /// Whether the call of this number may be answered now. A worker that is refused ends.
    fn before(&self, call: u64) -> bool;

    /// The call of this number was answered.
    fn after(&self, call: u64);

    /// Whether the writer may make the publication that shows so many updates. A writer that is refused ends.
    fn publishing(&self, front: u64) -> bool;
}

/// A gate that lets everybody go on at once.
#[derive(Clone, Copy, Debug)]
pub struct OpenGate;

impl Gate for OpenGate {
    fn before(&self, _call: u64) -> bool
        ensures { result ≡ true }
    {
        true
    }

    fn after(&self, _call: u64) {}

    fn publishing(&self, _front: u64) -> bool
        ensures { result ≡ true }
    {
        true
    }
}
