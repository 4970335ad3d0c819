/// What is said of an answer: that it is good, or the first that applies of these reasons.
#[derive(Clone, Copy, Debug, Drop, PartialEq, Eq)]
pub enum Verdict {
    /// The answer is good.
    Yes,
    /// The set is dependent.
    Dependent,
    /// The kernel's vectors are dependent.
    KernelDependent,
    /// This is the least position that stands in no part.
    PartsMissing(usize),
    /// This is the least position that stands in two parts.
    PartsTwice(usize),
    /// The bound of the certificate isn't the size of the set.
    BoundOff { size: usize, bound: usize },
}
