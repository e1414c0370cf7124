//! The types of numbers.
ghost use Rattle.std.specs.Prelude.{◌≡◌, ◌<◌, ◌≤◌, ◌^◌};
ghost use Rattle.room_kinds.specs.Reduction.{around_zero, reduced};

/// The number from `-half` to `half - 1` that is congruent to `n` modulo twice `half`.
fn around_zero(n: i64, half: u32) -> i64
    requires some { 0 < half }
    requires small { half ≤ 2 ^ 31 }
    ensures { result ≡ around_zero half n }
{
    let whole = 2 * i64::from(half);
    let rest = n.rem_euclid(whole);
    if rest < i64::from(half) {
        rest
    } else {
        rest - whole
    }
}

/// The type of an attribute or of a message's number. `Plain` is a 64-bit number that is never
/// reduced, as in the frame service's messages.
#[derive(Clone, Copy, Drop, Debug, PartialEq, Eq)]
pub enum NumberType {
    Int8,
    Int16,
    Int32,
    Uint8,
    Uint16,
    Uint32,
    Boolean,
    Plain,
}

impl NumberType {
    /// The number of this type that is congruent to `n` modulo two to the type's width. At
    /// `Boolean` it is 0 for 0 and 1 for all else, and at `Plain` `n` itself (this project's own
    /// rule, after Rust's wrapping casts).
    pub fn reduce(self, n: i64) -> i64
        ensures { result ≡ reduced self n }
    {
        match self {
            NumberType::Int8 => around_zero(n, 1 << 7),
            NumberType::Int16 => around_zero(n, 1 << 15),
            NumberType::Int32 => around_zero(n, 1 << 31),
            NumberType::Uint8 => n.rem_euclid(1 << 8),
            NumberType::Uint16 => n.rem_euclid(1 << 16),
            NumberType::Uint32 => n.rem_euclid(1 << 32),
            NumberType::Boolean => { if n == 0 { 0 } else { 1 } }
            NumberType::Plain => n,
        }
    }
}
