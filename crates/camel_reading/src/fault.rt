/// Why something is not read. One of its values says that memory was refused.
pub trait Fault: Drop + Sized {
    /// It says that memory was refused.
    ghost is_out_of_memory: { Self → Type 0 };

    /// A fault that says that memory was refused.
    fn out_of_memory() -> Self
        ensures { is_out_of_memory result };
}
