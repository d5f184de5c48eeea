ghost use Rattle.std.specs.Prelude.{◌≡◌, true, false, Some, Ok};
ghost use Rattle.std.specs.Option.{option_map};
ghost use Rattle.refusals.specs.declared.five.FiveNumbers.{FiveNumbers};
ghost use Rattle.rules.specs.Meant.{any_of};
ghost use Rattle.rules.specs.Vehicles.{vehicles_made};
ghost use Rattle.sweep.specs.Plate.{plain_of, rule_of};
ghost use Rattle.commands.specs.Commands.{asked_of};
ghost use Rattle.scenario.specs.Sessions.{fresh, plated, state_of, said_of, refused, ruling, rule_in, plating_in, rowing, rowing_in, sweeping_in, plate_in, takes_memory, obeyed, Obeys};

use super::Session;
use crate::answer::Reply;
use crate::done::Done;
use crate::trouble::Trouble;
use commands::Command;
use digits::read_row;
use refusals::Refusal;
use rules::{AnyRule, Life, Vehicles, count_code};
use shapes::Outline;
use std::alloc::Global;
use sweep::Plate;

// A whole row of codes, put into a plate.
fn put_codes(plate: &mut Plate<AnyRule>, y: u32, codes: &[u8]) -> Reply
    ensures { Obeys false (said_of result) (plated (any_of (rule_of plate.old)) (plain_of plate.old)) (plated (any_of (rule_of plate.new)) (plain_of plate.new)) (rowing (any_of (rule_of plate.old)) (plain_of plate.old) y codes.now) }
{
    let cells = codes.len();
    let columns = plate.shape().width;
    if cells != columns as usize {
        return Err(Trouble::RowLength { cells, columns });
    }
    plate.put_row(y, codes)?;
    Ok(Done::RowSet {
        number: y,
        cells,
        busy: cells - count_code(codes, 0),
    })
}

impl Session {
    /// A scenario that has not begun.
    pub fn new() -> Session
        ensures { state_of result ≡ fresh }
    {
        Session::Fresh
    }

    // A new rule; the plate of the old one is gone.
    fn set_rule(&mut self, rule: AnyRule) -> Done
        ensures { Obeys false (said_of (Ok result)) (state_of self.old) (state_of self.new) (ruling (state_of self.old) (Ok (any_of rule))) }
    {
        *self = Session::Ruled(rule);
        Done::Ruled(rule)
    }

    // Vehicles as the new rule.
    fn set_vehicles(&mut self, top_speed: u32, brake: u32, seed: u32) -> Reply
        ensures { Obeys false (said_of result) (state_of self.old) (state_of self.new) (ruling (state_of self.old) (vehicles_made top_speed brake seed)) }
    {
        let rule = Vehicles::new(top_speed, brake, seed)?;
        Ok(self.set_rule(AnyRule::Vehicles(rule)))
    }

    // The rule, if there is one.
    fn rule(&self) -> Option<AnyRule>
        ensures { option_map any_of result ≡ rule_in (state_of self.now) }
    {
        match self {
            Session::Fresh => None,
            Session::Ruled(rule) => Some(*rule),
            Session::Laid(plate) => Some(*plate.rule()),
        }
    }

    // A new plate.
    fn set_plate(&mut self, heap: Global, outline: Outline<'_>) -> Reply
        ensures { Obeys true (said_of result) (state_of self.old) (state_of self.new) (plating_in (rule_in (state_of self.old)) (state_of self.old) outline.entry.width outline.entry.height outline.entry.edgex.now outline.entry.edgey.now) }
    {
        let rule = self.rule().ok_or(Trouble::NoRule)?;
        let plate = Plate::new(heap, rule, outline)?;
        let shape = plate.shape();
        *self = Session::Laid(plate);
        Ok(Done::Plated(shape))
    }

    // The codes of a row, as digits, put into the plate.
    fn set_row(&mut self, heap: Global, y: u32, digits: &str) -> Reply
        ensures { Obeys true (said_of result) (state_of self.old) (state_of self.new) (rowing_in (state_of self.old) y digits.now) }
    {
        let Session::Laid(plate) = self else {
            return Err(Trouble::Refused(Refusal::Bare));
        };
        let codes = read_row(heap, digits.as_bytes())?.ok_or(Trouble::NotUnderstood)?;
        put_codes(plate, y, codes.as_slice())
    }

    // So many sweeps of the plate.
    fn sweep(&mut self, n: u32) -> Reply
        ensures { Obeys false (said_of result) (state_of self.old) (state_of self.new) (sweeping_in (state_of self.old) n) }
    {
        let Session::Laid(plate) = self else {
            return Err(Trouble::Refused(Refusal::Bare));
        };
        let before = plate.busy();
        let updates = plate.sweep(n)?;
        Ok(Done::Swept {
            steps: n,
            updates,
            before,
            after: plate.busy(),
        })
    }

    // Does what a command asks for.
    fn run(&mut self, heap: Global, command: Command<'_>) -> Reply
        ensures { Obeys (takes_memory (asked_of command.entry)) (said_of result) (state_of self.old) (state_of self.new) (obeyed (state_of self.old) (asked_of command.entry)) }
    {
        match command {
            Command::Nothing => Ok(Done::Nothing),
            Command::Life => Ok(self.set_rule(AnyRule::Life(Life))),
            Command::Vehicles {
                top_speed,
                brake,
                seed,
            } => self.set_vehicles(top_speed, brake, seed),
            Command::Plate(outline) => self.set_plate(heap, outline),
            Command::Row { number, digits } => self.set_row(heap, number, digits),
            Command::Sweep(n) => self.sweep(n),
            Command::Store(_) => Ok(Done::Nothing),
        }
    }

    /// Does what a command asks for, and answers what it did. A refused command changes nothing.
    pub fn obey(&mut self, heap: Global, command: Command<'_>) -> Reply
        ensures obeys { Obeys (takes_memory (asked_of command.entry)) (said_of result) (state_of self.old) (state_of self.new) (obeyed (state_of self.old) (asked_of command.entry)) }
        ensures kept { (numbers : FiveNumbers) → said_of result ≡ Some (refused numbers) → state_of self.new ≡ state_of self.old }
    {
        self.run(heap, command)
    }

    /// The plate, if there is one.
    pub fn plate(&self) -> Option<&Plate<AnyRule>>
        ensures { option_map (λ p. plated (any_of (rule_of p.now)) (plain_of p.now)) result ≡ plate_in (state_of self.now) }
    {
        match self {
            Session::Laid(plate) => Some(plate),
            _ => None,
        }
    }
}
