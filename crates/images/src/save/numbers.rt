// The numbers of the records of nodes.
ghost use Rattle.std.specs.Prelude.{◌≡◌, ◌⊎◌, ◌-◌, ◌<◌, ◌^◌, ℕ, length, nat_eq, Some, None, OnOk, if◌then◌else◌};
ghost use Rattle.images.specs.NodeNumbers.{number_in};

use std::alloc::{AllocError, Global};

/// The numbers of the records of nodes, by the number of the node, in 4 bytes each.
#[derive(Drop)]
pub(crate) struct Numbers {
    /// One more than the number of the node's record, and 0 where it has none, as behind the last of these.
    behind: Vec<u32>,
}

impl Numbers {
    /// No node has a record.
    pub fn new(alloc: Global) -> Self
        ensures { (r : ℕ) → number_in result r ≡ None }
    {
        Numbers {
            behind: Vec::new(alloc),
        }
    }

    /// The number of a node's record, where it has one.
    pub fn get(&self, node: usize) -> Option<usize>
        ensures { result ≡ number_in self.now node }
    {
        match self.behind.get(node) {
            Some(&behind) if behind > 0 => Some(behind as usize - 1),
            _ => None,
        }
    }

    /// Gives a node the number of its record.
    pub fn set(&mut self, node: usize, number: u32) -> Result<(), AllocError>
        requires { number < 2 ^ 32 - 1 }
        ensures set { OnOk result ((r : ℕ) → number_in self.new r ≡ (if nat_eq node r then Some number else number_in self.old r)) }
        ensures within { (r n : ℕ) → number_in self.new r ≡ Some n → (n ≡ number) ⊎ (number_in self.old r ≡ Some n) }
    {
        self.reach(node)?;
        self.behind[node] = number + 1;
        Ok(())
    }

    /// Makes room up to a node.
    fn reach(&mut self, node: usize) -> Result<(), AllocError>
        ensures same { (r : ℕ) → number_in self.new r ≡ number_in self.old r }
        ensures there { OnOk result (node < length self.new.behind.items) }
    {
        while self.behind.len() <= node {
            self.behind.push(0)?;
        }
        Ok(())
    }
}
