/// The footprint in bytes that a call would have given, which the pool does not hold.
#[derive(Clone, Copy, PartialEq, Eq, Debug)]
pub struct PoolPassed(pub u64);
