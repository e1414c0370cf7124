//! The names under which access points and provision points of services meet.
ghost use Rattle.std.specs.Prelude.{◌≡◌, ◌<◌, ◌≤◌, [], ◌∷◌, ◌++◌, length, Some, None, IfOk, OnOk, OnErr, Err, MatchOption};
ghost use Rattle.action_lang.specs.action_check.ServiceNames.{texts, with_name, number_of};

use action_program::ActionFault;
use indexmap::IndexSet;
use room_ast::Name;
use std::alloc::{AllocError, Global};
use std::marker::Model;

/// The greatest number of a name.
const MAX_NUMBER: usize = 0xffff_ffff;

/// The number of a name, if it has one.
fn number_in(known: &IndexSet<Vec<u8>>, name: &[u8]) -> Option<usize>
    ensures { MatchOption result
        (number_of (texts known.now.keys) name.now ≡ length (texts known.now.keys))
        (λ k.
        (k ≡ number_of (texts known.now.keys) name.now)
        × (number_of (texts known.now.keys) name.now < length (texts known.now.keys))) }
{
    known.get_index_of(name)
}

/// Adds a name that has no number yet. After a refusal nothing has changed.
fn add(alloc: Global, known: &mut IndexSet<Vec<u8>>, name: &[u8]) -> Result<(), AllocError>
    requires { length (texts known.old.keys) ≤ number_of (texts known.old.keys) name.now }
    ensures added { OnOk result (texts known.new.keys ≡ texts known.old.keys ++ name.now ∷ []) }
    ensures unchanged { OnErr result (known.new.keys ≡ known.old.keys) }
{
    let name = Vec::from_slice(alloc, name)?;
    known.insert(name)?;
    Ok(())
}

/// Service names, numbered from 0 in the order in which they first came.
#[derive(Drop)]
pub struct ServiceNames {
    known: IndexSet<Vec<u8>>,
}

impl Model for ServiceNames {
    ghost use Rattle.std.specs.Prelude.{◌≤◌, ◌^◌, List, ℕ, length};
    ghost use Rattle.action_lang.specs.action_check.ServiceNames.{texts};

    ghost Value = { List (List ℕ) };

    ghost view = { λ s. texts s.known.keys };

    ghost invariant = { λ s. length (texts s.known.keys) ≤ 2 ^ 32 };
}

impl ServiceNames {
    /// No names. It takes no memory.
    pub fn new(alloc: Global) -> ServiceNames
        ensures { result ≡ [] }
    {
        ServiceNames {
            known: IndexSet::new(alloc),
        }
    }

    /// The names in the order of their numbers.
    pub fn names(&self) -> &[Vec<u8>]
        ensures { texts result.now ≡ self.now }
    {
        self.known.as_slice()
    }

    /// The number of a name, which is added where it is new. More than 2^32 names are want of
    /// memory. After a refusal nothing has changed.
    #[tactic(auto, using(crate::proofs::action_check::Known::known_stays, crate::proofs::action_check::Known::new_added))]
    pub fn number(&mut self, alloc: Global, name: &Name) -> Result<u32, ActionFault>
        ensures number { IfOk result (λ k. k ≡ number_of self.old name.now) }
        ensures names { OnOk result (self.new ≡ with_name self.old name.now) }
        ensures memory { OnErr result (result ≡ Err ActionFault.Memory) }
        ensures unchanged { OnErr result (self.new ≡ self.old) }
    {
        if let Some(number) = number_in(&self.known, name.as_bytes()) {
            return Ok(number as u32);
        }
        let number = self.known.len();
        if number > MAX_NUMBER {
            return Err(ActionFault::Memory);
        }
        add(alloc, &mut self.known, name.as_bytes())?;
        Ok(number as u32)
    }
}
