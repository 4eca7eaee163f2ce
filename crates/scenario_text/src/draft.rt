//! What was read so far.

ghost use Rattle.std.specs.Prelude.{◌≡◌, IsSome, OnOk, OnErr, IfErr, [], ◌∷◌, ◌++◌};
ghost use Rattle.scenario_text.specs.declared.fault.ParseFault.TheVariants.{OutOfMemory};

use crate::fault::ParseFault;
use crate::statement::Statement;
use pv_words::{DeviceSetup, DomainSize};
use std::alloc::Global;

/// What a line holds.
#[derive(Debug, Drop)]
pub enum Item {
    Domain(DomainSize),
    Device(DeviceSetup),
    Step(Statement),
}

/// What the lines so far hold.
#[derive(Debug, Drop)]
pub struct Draft {
    pub sizes: Vec<DomainSize>,
    pub devices: Vec<DeviceSetup>,
    pub statements: Vec<Statement>,
}

impl Draft {
    ghost use Rattle.scenario_text.specs.Scenario.{drafted, nothing, with_item};

    pub fn new(alloc: Global) -> Draft
        ensures { drafted result ≡ nothing }
    {
        Draft {
            sizes: Vec::new(alloc),
            devices: Vec::new(alloc),
            statements: Vec::new(alloc),
        }
    }

    /// Adds what a line holds, if anything. Only for that is memory asked.
    pub fn push(&mut self, item: Option<Item>) -> Result<(), ParseFault>
        ensures ok { OnOk result (drafted self.new ≡ with_item item (drafted self.old)) }
        ensures err { IfErr result (λ e. e ≡ OutOfMemory) }
        ensures needed { OnErr result (IsSome item) }
    {
        match item {
            None => {}
            Some(Item::Domain(size)) => self.sizes.push(size)?,
            Some(Item::Device(device)) => self.devices.push(device)?,
            Some(Item::Step(statement)) => self.statements.push(statement)?,
        }
        Ok(())
    }
}
