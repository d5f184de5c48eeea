ghost use Rattle.std.specs.Prelude.{◌≡◌, length};
ghost use Rattle.commands.specs.Commands.{word_at, asked_if, store_asked_if, store_verb_of, verb_of, command_of};

use super::command::{Command, StoreCommand};
use super::number::read_number;
use shapes::Outline;

// The command for stores that some words are.
#[tactic(auto, using(crate::proofs::Choosing::chosen))]
fn read_store_command<'a>(words: &'a [&'a str]) -> Option<StoreCommand<'a>>
    ensures { store_asked_if result ≡ store_verb_of (length words.now) (word_at words.now) }
{
    match *words {
        ["store", "card", tiles, ref worn @ ..] => {
            Some(StoreCommand::Card {
                tiles: read_number(tiles)?,
                worn,
            })
        }
        ["store", "memory", tiles] => Some(StoreCommand::Memory(read_number(tiles)?)),
        ["store", "bits", tiles] => Some(StoreCommand::Bits(read_number(tiles)?)),
        ["window", first, tiles] => Some(StoreCommand::Window {
            first: read_number(first)?,
            tiles: read_number(tiles)?,
        }),
        ["count"] => Some(StoreCommand::Count),
        ["top"] => Some(StoreCommand::Top),
        ["shelf"] => Some(StoreCommand::Shelf),
        ["list"] => Some(StoreCommand::List),
        ["fetches"] => Some(StoreCommand::Fetches),
        ["settle"] => Some(StoreCommand::Settle),
        ["below", tile] => Some(StoreCommand::Below(read_number(tile)?)),
        ["read", tile] => Some(StoreCommand::Read(read_number(tile)?)),
        ["write", tile, byte] => Some(StoreCommand::Write {
            tile: read_number(tile)?,
            byte: u8::try_from(read_number(byte)?).ok()?,
        }),
        _ => None,
    }
}

// The command that some words are.
#[tactic(auto, using(crate::proofs::Choosing::chosen))]
fn read_verb<'a>(words: &'a [&'a str]) -> Option<Command<'a>>
    ensures { asked_if result ≡ verb_of (length words.now) (word_at words.now) }
{
    match *words {
        ["rule", "life"] => Some(Command::Life),
        ["rule", "vehicles", top_speed, brake, seed] => Some(Command::Vehicles {
            top_speed: read_number(top_speed)?,
            brake: read_number(brake)?,
            seed: read_number(seed)?,
        }),
        ["plate", width, height, edgex, edgey] => Some(Command::Plate(Outline {
            width: read_number(width)?,
            height: read_number(height)?,
            edgex,
            edgey,
        })),
        ["row", number, digits] => Some(Command::Row {
            number: read_number(number)?,
            digits,
        }),
        ["sweep", steps] => Some(Command::Sweep(read_number(steps)?)),
        _ => Some(Command::Store(read_store_command(words)?)),
    }
}

/// What a line's words ask for; None where they are no command.
pub fn read_command<'a>(words: &'a [&'a str]) -> Option<Command<'a>>
    ensures { asked_if result ≡ command_of (length words.now) (word_at words.now) }
{
    match *words {
        [] => Some(Command::Nothing),
        [first, ..] if first.starts_with('#') => Some(Command::Nothing),
        _ => read_verb(words),
    }
}
