//! Messages by the names of the ports at which they come or go.
use indexmap::IndexSet;
use std::alloc::{AllocError, Global};

/// Messages by ports: each port has each message once, in the order in which they were added.
#[derive(Drop)]
pub struct ByPort {
    ports: IndexSet<Vec<u8>>,
    messages: Vec<IndexSet<Vec<u8>>>,
}

impl ByPort {
    /// No messages at all.
    pub fn new(alloc: Global) -> ByPort {
        ByPort {
            ports: IndexSet::new(alloc),
            messages: Vec::new(alloc),
        }
    }

    /// The number of a port, which is added where it is new.
    fn number_of(&mut self, alloc: Global, port: &[u8]) -> Result<usize, AllocError> {
        if let Some(number) = self.ports.get_index_of(port) {
            return Ok(number);
        }
        let number = self.ports.len();
        self.ports.insert(Vec::from_slice(alloc, port)?)?;
        self.messages.push(IndexSet::new(alloc))?;
        Ok(number)
    }

    /// Adds a message of a port; says the port's number, in the order in which they came.
    pub fn add(&mut self, alloc: Global, port: &[u8], message: &[u8]) -> Result<usize, AllocError> {
        let number = self.number_of(alloc, port)?;
        if let Some(messages) = self.messages.as_mut_slice().get_mut(number) {
            messages.insert(Vec::from_slice(alloc, message)?)?;
        }
        Ok(number)
    }

    /// The messages of a port.
    fn messages_of(&self, port: &[u8]) -> Option<&IndexSet<Vec<u8>>> {
        self.messages.as_slice().get(self.ports.get_index_of(port)?)
    }

    /// The messages of a port, in the order in which they were added.
    pub fn at(&self, port: &[u8]) -> &[Vec<u8>] {
        match self.messages_of(port) {
            Some(messages) => messages.as_slice(),
            None => &[],
        }
    }

    /// Whether a port has a message.
    pub fn has(&self, port: &[u8], message: &[u8]) -> bool {
        match self.messages_of(port) {
            Some(messages) => messages.contains(message),
            None => false,
        }
    }
}
