//! How long byte calls of a shelf take: a million on the tile in front, a million round three tiles, and a
//! million that each fetch. The times go to standard error, since they vary from run to run; the sums of the
//! bytes read go to standard output.
#![tactic(auto)]

ghost use Rattle.std.specs.Prelude.{◌≡◌, ◌*◌, ◌≤◌, Ok, Err};

use places::Offset;
use refusals::Fault;
use shelf::Shelf;
use std::time::Instant;
use stores::Memory;

// How many bytes each measurement reads.
const CALLS: u32 = 1000000;

// Reads bytes of so many tiles, tile after tile, puts each sixteenth back one higher, and answers their sum.
fn go_round(shelf: &mut Shelf<Memory>, tiles: u32) -> Result<u64, Fault>
    ensures { elim result [ Ok sum ↦ sum ≤ 255 * 1000000 | Err f ↦ Unit {0} ] }
{
    let mut sum = 0;
    for i in 0..CALLS {
        let k = i % tiles.max(1);
        let at = Offset::of(i as usize);
        let byte = shelf.get(k, at)?;
        sum += u64::from(byte);
        if i % 16 == 0 {
            shelf.put(k, at, byte.wrapping_add(1))?;
        }
    }
    Ok(sum)
}

fn main(rt: HostRuntime) -> anyhow::Result<()> {
    let memory = vec![in rt.alloc(); 0u8; 8192]?;
    let mut shelf = Shelf::new(Memory::new(memory));
    for tiles in [1, 3, 65] {
        shelf.recount();
        let start = Instant::now(&rt)?;
        let answer = go_round(&mut shelf, tiles);
        let took = start.elapsed(&rt)?.as_micros();
        let fetches = shelf.fetches();
        match answer {
            Ok(sum) => println!(rt;
                "{CALLS} bytes round {tiles} tiles: sum {sum}, {fetches} fetches"
            )?,
            Err(_) => println!(rt; "refused")?,
        }
        eprintln!(rt; "{CALLS} bytes round {tiles} tiles: {took} us")?;
    }
    Ok(())
}
