//! The numbers that a message carries.
ghost use Rattle.std.specs.Prelude.{◌≡◌, ◌↔◌, ◌≤◌, ◌<◌, ◌++◌, ◌∷◌, [], length, take, IfOk, OnOk, OnErr, IsTrue};

use std::alloc::{AllocError, Global};
use std::marker::Model;

/// How many numbers stand in a payload itself.
const FEW: usize = 2;

/// The numbers of a message, at most 64. Up to two stand in the payload itself, since most
/// messages carry no more; where there are more they take one allocation.
#[derive(Drop, Debug)]
pub struct Payload {
    few: [i64; FEW],
    /// How many of `few` are numbers of the message; none where `many` has them.
    count: usize,
    many: Vec<i64>,
}

impl Model for Payload {
    ghost use Rattle.std.specs.Prelude.{◌≤◌, ◌<◌, ◌≡◌, ◌++◌, List, ℤ, length, take};

    ghost Value = { List ℤ };

    ghost view = { λ p. take p.count p.few ++ p.many.items };

    ghost invariant = { λ p. (p.count ≤ 2) × (length p.many.items ≤ 64) × (0 < length p.many.items → p.count ≡ 0) };
}

impl Payload {
    /// The most numbers that a message carries.
    pub const MAX_LEN: usize = 64;

    /// No numbers. It takes no memory.
    pub fn empty(alloc: Global) -> Payload
        ensures { result ≡ [] }
    {
        Payload::of_few(alloc, [0; FEW], 0)
    }

    pub fn from_slice(alloc: Global, numbers: &[i64]) -> Result<Payload, AllocError>
        requires { length numbers.now ≤ 64 }
        ensures { IfOk result (λ p. p ≡ numbers.now) }
    {
        match *numbers {
            [] => Ok(Payload::empty(alloc)),
            [only] => Ok(Payload::of_few(alloc, [only, 0], 1)),
            [first, second] => Ok(Payload::of_few(alloc, [first, second], 2)),
            _ => {
                let many = numbers.to_vec(alloc)?;
                Ok(Payload {
                    few: [0; FEW],
                    count: 0,
                    many,
                })
            }
        }
    }

    /// The first `count` of these numbers.
    fn of_few(alloc: Global, few: [i64; FEW], count: usize) -> Payload
        requires { count ≤ 2 }
        ensures { result ≡ take count few }
    {
        Payload {
            few,
            count,
            many: Vec::new(alloc),
        }
    }

    /// One more number at the end. After a refusal there is none more.
    pub fn push(&mut self, number: i64) -> Result<(), AllocError>
        requires { length self.old < 64 }
        ensures ok { OnOk result (self.new ≡ self.old ++ number ∷ []) }
        ensures err { OnErr result (self.new ≡ self.old) }
    {
        if !self.many.is_empty() {
            self.many.push(number)?;
        } else if self.count < FEW {
            self.few[self.count] = number;
            self.count += 1;
        } else {
            let mut many = self.few.to_vec(*self.many.allocator())?;
            many.push(number)?;
            self.many = many;
            self.count = 0;
        }
        Ok(())
    }

    pub fn numbers(&self) -> &[i64]
        ensures same { result.now ≡ self.now }
        ensures short { length self.now ≤ 64 }
    {
        if self.many.is_empty() {
            &self.few[..self.count]
        } else {
            self.many.as_slice()
        }
    }

    pub fn copy(&self, alloc: Global) -> Result<Payload, AllocError>
        ensures { IfOk result (λ p. p ≡ self.now) }
    {
        Payload::from_slice(alloc, self.numbers())
    }

    /// Whether both have the same numbers, wherever they stand.
    pub fn is_same(&self, other: &Payload) -> bool
        ensures { IsTrue result ↔ (self.now ≡ other.now) }
    {
        is_same_numbers(self.numbers(), other.numbers())
    }
}

fn is_same_numbers(a: &[i64], b: &[i64]) -> bool
    ensures { IsTrue result ↔ (a.now ≡ b.now) }
{
    a == b
}
