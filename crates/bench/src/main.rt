//! Reads a scenario on standard input and says in print what it did, command by command.
#![tactic(auto)]

use desk::{DeskDone, Tiles};
use scenario::{Answer, Bench, BenchReply, Done, rows_text};
use std::io::{BufRead, BufReader};

fn main(rt: HostRuntime) -> anyhow::Result<()> {
    let heap = rt.alloc();
    let mut input = BufReader::new(heap, rt.stdin())?;
    let mut bench = Bench::new();
    // One buffer for all lines: `split` takes memory for each, and so fails where this has enough.
    let mut bytes = Vec::new(heap);
    for line in 1..u64::MAX {
        bytes.clear();
        if input.read_until(b'\n', &mut bytes)? == 0 {
            break;
        }
        let reply = bench.answer(heap, bytes.as_slice());
        let answer = Answer { line, reply };
        match reply {
            BenchReply::Plates(Ok(Done::Nothing)) => {}
            BenchReply::Plates(Ok(Done::Swept { .. })) => {
                println!(rt; "{answer}")?;
                if let Some(plate) = bench.plate() {
                    let step = plate.step();
                    let rows = rows_text(heap, plate)?;
                    print!(rt; "step {step}\n{rows}")?;
                }
            }
            BenchReply::Stores(Ok(DeskDone::List)) => {
                println!(rt; "{answer}{}", Tiles(bench.list()))?;
            }
            _ => println!(rt; "{answer}")?,
        }
    }
    Ok(())
}
