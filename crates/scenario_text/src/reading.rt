//! Reading a text line by line.

ghost use Rattle.std.specs.Prelude.{◌≡◌, ◌<◌, ◌-◌, ◌^◌, length, IfOk};
ghost use Rattle.std.specs.List.{before_first, after_first};
ghost use Rattle.script_tokens.specs.Flaws.{Gives};
ghost use Rattle.script_tokens.specs.Lines.{is_line_end};
ghost use Rattle.scenario_text.specs.Scenario.{drafted};
ghost use Rattle.scenario_text.specs.Reading.{Tells, line_item};

use crate::draft::{Draft, Item};
use crate::fault::{ParseFault, ScriptFault};
use crate::item::item_of;
use script_tokens::{Flaw, after_line, code_of};
use std::alloc::Global;

/// What the first line of a text holds, and the text behind that line.
#[tactic(auto, unfolding(crate::specs::Reading::line_item))]
fn split_line<'a>(so_far: &Draft, text: &'a [u8]) -> Result<(Option<Item>, &'a [u8]), Flaw>
    requires { length text.now < 2 ^ 32 - 1 }
    ensures item { Gives (λ x. x.0) result (line_item (drafted so_far.now) (before_first is_line_end text.now)) }
    ensures rest { IfOk result (λ x. x.1.now ≡ after_first is_line_end text.now) }
{
    let code = code_of(text)?;
    let item = item_of(so_far, code)?;
    let (_, rest) = text.split_at(code.len());
    Ok((item, after_line(rest)))
}

/// What the lines of a text say, up to its first fault. Memory is asked for only to keep what a line holds.
pub fn read(alloc: Global, text: &[u8]) -> Result<Draft, ParseFault>
    requires { length text.now < 2 ^ 32 - 1 }
    ensures { Tells drafted result text.now }
{
    let mut draft = Draft::new(alloc);
    let mut rest = text;
    let mut line = 1;
    while !rest.is_empty() {
        let (item, after) = match split_line(&draft, rest) {
            Ok(found) => found,
            Err(Flaw { column, kind }) => {
                return Err(ParseFault::Fault(ScriptFault { line, column, kind }));
            }
        };
        draft.push(item)?;
        rest = after;
        line += 1;
    }
    Ok(draft)
}
