ghost use Rattle.std.specs.Prelude.{◌≡◌, ◌<◌, ◌↔◌, ◌⊎◌};
ghost use Rattle.camel_criteria.specs.DetectionPoint.{handling_of};

/// What is done with a call if the dialogue between gsmSSF and gsmSCF fails: DefaultCallHandling of TS 29.002.
#[derive(Clone, Copy, Debug, PartialEq, Eq)]
pub enum Handling {
    /// The call goes on without the service.
    Continue,
    /// The call is released.
    Release,
}

impl Handling {
    /// The handling that a received number stands for: 0 is continue and 1 release; TS 29.002 has values 2
    /// to 31 treated as continue, and values above 31 as release.
    pub fn of_received(received: u32) -> Handling
        ensures handling { result ≡ handling_of received }
        ensures release { (result ≡ Handling.Release) ↔ ((received ≡ 1) ⊎ (31 < received)) }
    {
        match received {
            0 | 2..=31 => Handling::Continue,
            _ => Handling::Release,
        }
    }
}
