/// Why a run fails.
#[derive(Clone, Copy)]
pub enum Failure {
    /// A read failed, or 2^64 - 1 bytes were read and more was wanted.
    Read,
    /// A write failed.
    Write,
    /// A count would exceed 2^64 - 1.
    Count,
}
