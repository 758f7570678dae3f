// A byte that stands for nothing.
#[derive(Clone, Copy, PartialEq, Debug)]
pub struct UnknownCode;
