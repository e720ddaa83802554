use camel_vlr::Vlr;
use std::sync::Wait;

/// A store that is ended when it is dropped, so that each way out of a replay ends it.
pub(crate) struct OpenStore<W: Wait + Drop> {
    pub(crate) vlr: Vlr,
    pub(crate) rt: W,
}

impl<W: Wait + Drop> Drop for OpenStore<W> {
    fn drop(self) {
        let OpenStore { vlr, rt } = self;
        vlr.end(&rt);
    }
}
