//! Why a job is not done.

/// Why a job is not done, in the order of the tests.
#[derive(Clone, Copy, PartialEq, Eq, Debug)]
pub enum JobFault {
    /// The slot has no such job.
    NoJob,
    /// The key is not the one of the plan.
    OtherKey,
    /// The buffer is too small for the protected frame.
    Space,
}
