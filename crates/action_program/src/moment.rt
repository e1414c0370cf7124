//! What an evaluation reads and changes.
ghost use Rattle.std.specs.Prelude.{◌≡◌, [], IfOk, slice_set};
ghost use Rattle.action_program.specs.Arithmetic.{number_at};

use room_kinds::{Commands, Incarnation, Notes, Payload};
use std::alloc::{AllocError, Global};
use std::marker::Model;

/// The attributes of an actor: their numbers in order of declaration.
#[derive(Drop)]
pub struct Vars {
    numbers: Vec<i64>,
}

impl Model for Vars {
    ghost use Rattle.std.specs.Prelude.{List, ℤ};

    ghost Value = { List ℤ };

    ghost view = { λ v. v.numbers.items };
}

impl Vars {
    pub fn new(alloc: Global, values: &[i64]) -> Result<Vars, AllocError>
        ensures { IfOk result (λ vars. vars ≡ values.now) }
    {
        let numbers = values.to_vec(alloc)?;
        Ok(Vars { numbers })
    }

    /// The numbers in order of declaration. It takes no memory.
    pub fn numbers(&self) -> &[i64]
        ensures { result.now ≡ self.now }
    {
        self.numbers.as_slice()
    }

    /// The number at a place; 0 past the end.
    pub fn number(&self, place: u32) -> i64
        ensures { result ≡ number_at self.now place }
    {
        match self.numbers.get(place as usize) {
            Some(number) => *number,
            None => 0,
        }
    }

    /// Writes the number at a place; past the end nothing changes.
    pub fn write(&mut self, place: u32, number: i64)
        ensures { self.new ≡ slice_set self.old place number }
    {
        let place = place as usize;
        if place < self.numbers.len() {
            self.numbers[place] = number;
        }
    }
}

/// When an action runs: the payload of the message that is handled and the place at which it came,
/// the actor, and whether there is a message at all.
#[derive(Drop)]
pub struct Moment {
    pub payload: Payload,
    pub place: u32,
    pub me: Incarnation,
    pub has_message: bool,
}

/// What actions told and asked for, in their order.
#[derive(Drop)]
pub struct Effects {
    pub notes: Notes,
    pub commands: Commands,
}

impl Effects {
    /// Nothing told, nothing asked for. It takes no memory.
    pub fn new(alloc: Global) -> Effects
        ensures notes { result.notes ≡ [] }
        ensures commands { result.commands ≡ [] }
    {
        Effects {
            notes: Notes::new(alloc),
            commands: Commands::new(alloc),
        }
    }
}
