ghost use Rattle.std.specs.Prelude.{Some};
ghost use Rattle.scenario.specs.Written.{done_text, trouble_text, reply_text, desk_reply_text, bench_reply_text};

use super::answer::{Answer, BenchReply, DeskReply, Reply};
use super::done::Done;
use super::trouble::Trouble;
use desk::DeskTrouble;
use refusals::FiveNumbers;
use rules::Rule;
use std::error::Error;
use std::fmt;

impl fmt::Display for Done {
    ghost output = { λ done. Some (done_text done) };

    fn fmt<W: fmt::Write>(&self, f: &mut fmt::Formatter<W>) -> fmt::Result {
        match self {
            Done::Nothing => Ok(()),
            Done::Ruled(rule) => {
                let numbers = rule.numbers();
                write!(
                    f,
                    "rule {rule}: reach {} and {}, codes 0 to {}",
                    numbers.rx, numbers.ry, numbers.top
                )
            }
            Done::Plated(shape) => write!(
                f,
                "plate {} {} {} {}: all cells empty",
                shape.width, shape.height, shape.edgex, shape.edgey
            ),
            Done::RowSet {
                number,
                cells,
                busy,
            } => write!(f, "row {number}: {cells} cells, {busy} busy"),
            Done::Swept {
                steps,
                updates,
                before,
                after,
            } => write!(
                f,
                "swept {steps} steps, {updates} updates, busy {before} before, {after} after"
            ),
        }
    }
}

impl fmt::Display for Trouble {
    ghost output = { λ trouble. Some (trouble_text trouble) };

    fn fmt<W: fmt::Write>(&self, f: &mut fmt::Formatter<W>) -> fmt::Result {
        match self {
            Trouble::Refused(refusal) => {
                let numbers = FiveNumbers::from(*refusal);
                write!(f, "refused {numbers}")
            }
            Trouble::NoRule => write!(f, "no rule yet"),
            Trouble::RowLength { cells, columns } => write!(
                f,
                "a row of {cells} cells, and the plate has {columns} columns"
            ),
            Trouble::NotUnderstood => write!(f, "not understood"),
            Trouble::NoMemory => write!(f, "not enough memory"),
        }
    }
}

impl Error for Trouble {}

// A refusal is told by its numbers, and any other trouble by the line.
impl fmt::Display for Answer<Reply> {
    ghost output = { λ answer. Some (reply_text answer.line answer.reply) };

    fn fmt<W: fmt::Write>(&self, f: &mut fmt::Formatter<W>) -> fmt::Result {
        let line = self.line;
        match self.reply {
            Ok(done) => write!(f, "{done}"),
            Err(refused @ Trouble::Refused(_)) => write!(f, "{refused}"),
            Err(trouble) => write!(f, "line {line}: {trouble}"),
        }
    }
}

// A fault is told by itself, and any other trouble by the line. It stands beside the one above, since which trouble
// is told by itself is each enum's own.
impl fmt::Display for Answer<DeskReply> {
    ghost output = { λ answer. Some (desk_reply_text answer.line answer.reply) };

    fn fmt<W: fmt::Write>(&self, f: &mut fmt::Formatter<W>) -> fmt::Result {
        let line = self.line;
        match self.reply {
            Ok(done) => write!(f, "{done}"),
            Err(fault @ DeskTrouble::Faulted(_)) => write!(f, "{fault}"),
            Err(other) => write!(f, "line {line}: {other}"),
        }
    }
}

impl fmt::Display for Answer<BenchReply> {
    ghost output = { λ answer. Some (bench_reply_text answer.line answer.reply) };

    fn fmt<W: fmt::Write>(&self, f: &mut fmt::Formatter<W>) -> fmt::Result {
        let line = self.line;
        match self.reply {
            BenchReply::Plates(reply) => Answer { line, reply }.fmt(f),
            BenchReply::Stores(reply) => Answer { line, reply }.fmt(f),
        }
    }
}
