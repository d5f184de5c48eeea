ghost use Rattle.std.specs.Prelude.{◌≡◌};
ghost use Rattle.std.specs.Option.{option_map};
ghost use Rattle.rules.specs.Meant.{any_of};
ghost use Rattle.sweep.specs.Plate.{plain_of, rule_of};
ghost use Rattle.commands.specs.Commands.{asked_if};
ghost use Rattle.desk.specs.Desks.{empty, list_in};
ghost use Rattle.scenario.specs.Sessions.{fresh, plated, plate_in};
ghost use Rattle.scenario.specs.Benches.{bench_of, BenchObeys, Answers};

use super::Bench;
use crate::answer::BenchReply;
use crate::session::Session;
use crate::trouble::Trouble;
use commands::{Command, read_command, split_words};
use desk::Desk;
use rules::AnyRule;
use shelves::Entry;
use std::alloc::Global;
use std::str::from_utf8;
use sweep::Plate;

impl Bench {
    /// A bench with nothing on it.
    pub fn new() -> Bench
        ensures { bench_of result ≡ record { plates = fresh; stores = empty } }
    {
        Bench {
            plates: Session::new(),
            stores: Desk::new(),
        }
    }

    /// Does what a command asks for, and answers what it did; None is a line that is not understood.
    pub fn obey(&mut self, heap: Global, command: Option<Command<'_>>) -> BenchReply
        ensures { BenchObeys result (bench_of self.old) (bench_of self.new) (asked_if command.entry) }
    {
        match command {
            Some(Command::Store(store)) => BenchReply::Stores(self.stores.obey(heap, store)),
            Some(other) => BenchReply::Plates(self.plates.obey(heap, other)),
            None => BenchReply::Plates(Err(Trouble::NotUnderstood)),
        }
    }

    /// Answers a line of a scenario.
    pub fn answer(&mut self, heap: Global, line: &[u8]) -> BenchReply
        ensures { Answers line.now result (bench_of self.old) (bench_of self.new) }
    {
        let Ok(text) = from_utf8(line) else {
            return BenchReply::Plates(Err(Trouble::NotUnderstood));
        };
        let Ok(words) = split_words(heap, text) else {
            return BenchReply::Plates(Err(Trouble::NoMemory));
        };
        self.obey(heap, read_command(words.as_slice()))
    }

    /// The tiles of the shelf, front first, and none if there is no shelf.
    pub fn list(&self) -> &[Entry]
        ensures { result.now ≡ list_in (bench_of self.now).stores }
    {
        self.stores.list()
    }

    /// The plate, if there is one.
    pub fn plate(&self) -> Option<&Plate<AnyRule>>
        ensures { option_map (λ p. plated (any_of (rule_of p.now)) (plain_of p.now)) result ≡ plate_in (bench_of self.now).plates }
    {
        self.plates.plate()
    }
}
