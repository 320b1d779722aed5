// How a run ends.

/// Why a run ends without a value, by the program's own doing.
#[derive(Clone, Copy)]
pub enum Trap {
    /// An exact result is no int of 64 bits.
    Overflow,
    /// A divisor is 0.
    DivZero,
    /// The spelling of a new value would pass its limit.
    TooBig,
    /// The depth of a new value would pass its limit.
    TooDeep,
    /// An index is outside its array.
    Index,
}

/// How a run ends.
#[derive(Clone, Copy)]
pub enum Outcome<V> {
    /// With a value.
    Done(V),
    /// With a trap.
    Trapped(Trap),
    /// Without the fuel for a call.
    Out,
}
