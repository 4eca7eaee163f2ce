//! Scripts, and how they are read.

ghost use Rattle.std.specs.Prelude.{◌≡◌, ◌<◌, ◌-◌, ◌^◌, length, IfOk};

use crate::fault::ParseFault;
use crate::reading::read;
use crate::statement::Statement;
use pv_words::{DeviceSetup, Devices, DomainSize, Setup, Sizes};
use std::alloc::Global;
use std::marker::Model;

/// What a text says, seen as what it declares and the statements to be played. It can be played: its domains and devices
/// keep their rules, and its statements name only what it declared.
#[derive(Debug, Drop)]
pub struct Script {
    setup: Setup,
    statements: Vec<Statement>,
}

impl Model for Script {
    ghost use Rattle.scenario_text.specs.Scenario.{Scenario};
    ghost use Rattle.scenario_text.specs.Playable.{IsPlayable};

    ghost Value = { Scenario };

    ghost view = { λ s. record { sizes = s.setup.sizes; devices = s.setup.devices; statements = s.statements.items } };

    ghost invariant = { λ s. IsPlayable (record { sizes = s.setup.sizes; devices = s.setup.devices; statements = s.statements.items }) };
}

impl Script {
    ghost use Rattle.scenario_text.specs.Reading.{Tells};
    ghost use Rattle.scenario_text.specs.Playable.{IsPlayable};

    /// Reads a text, up to its first fault. It may also run out of memory, where a line before that fault holds a
    /// declaration or a statement. What was read can be played: its statements name only what it declared.
    pub fn parse(alloc: Global, text: &[u8]) -> Result<Script, ParseFault>
        requires { length text.now < 2 ^ 32 - 1 }
        ensures tells { Tells (λ s. s) result text.now }
        ensures playable { IfOk result (λ s. IsPlayable s) }
    {
        let draft = read(alloc, text)?;
        Ok(Script {
            setup: Setup {
                sizes: Sizes::new(draft.sizes),
                devices: Devices::new(draft.devices),
            },
            statements: draft.statements,
        })
    }

    /// The declarations. Whoever holds a script knows that it can be played.
    pub fn setup(&self) -> &Setup
        ensures sizes { result.now.sizes ≡ self.now.sizes }
        ensures devices { result.now.devices ≡ self.now.devices }
        ensures playable { IsPlayable self.now }
    {
        &self.setup
    }

    /// The domains, in the order of their declarations.
    pub fn sizes(&self) -> &[DomainSize]
        ensures { result.now ≡ self.now.sizes }
    {
        self.setup.sizes.as_slice()
    }

    /// The devices, in the order of their declarations.
    pub fn devices(&self) -> &[DeviceSetup]
        ensures { result.now ≡ self.now.devices }
    {
        self.setup.devices.as_slice()
    }

    /// The statements, in their order.
    pub fn statements(&self) -> &[Statement]
        ensures { result.now ≡ self.now.statements }
    {
        self.statements.as_slice()
    }

    /// The declarations and the statements.
    pub fn into_parts(self) -> (Setup, Vec<Statement>)
        ensures sizes { result.0.sizes ≡ self.sizes }
        ensures devices { result.0.devices ≡ self.devices }
        ensures statements { result.1.items ≡ self.statements }
    {
        let Script { setup, statements } = self;
        (setup, statements)
    }
}
