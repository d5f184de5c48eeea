use places::Offset;
use refusals::Fault;
use shelf::Shelf;
use std::test::Fail;
use stores::{Bits, Card, Memory, TileStore, Window};

#[test]
fn the_last_used_comes_first(rt: HostRuntime) -> Result<(), Fail> {
    let mut shelf = Shelf::new(Memory::new(vec![in rt.alloc(); 0u8; 640]?));
    assert_eq!(rt; shelf.get(3, Offset::of(0)), Ok(0));
    assert_eq!(rt; shelf.get(7, Offset::of(0)), Ok(0));
    assert_eq!(rt; shelf.put(3, Offset::of(9), 5), Ok(()));
    assert_eq!(rt; shelf.get(1, Offset::of(0)), Ok(0));
    assert_eq!(rt; shelf.get(7, Offset::of(0)), Ok(0));
    let list = shelf.list();
    assert!(rt; list.len() == 3);
    assert_eq!(rt; (list[0].tile, list[1].tile, list[2].tile), (7, 1, 3));
    assert_eq!(rt;
        (list[0].changed, list[1].changed, list[2].changed),
        (false, false, true)
    );
    assert_eq!(rt; list[2].bytes[9], 5);
    assert_eq!(rt; shelf.fetches(), 3);
    Ok(())
}

#[test]
fn the_65th_throws_the_last_off(rt: HostRuntime) -> Result<(), Fail> {
    let mut shelf = Shelf::new(Memory::new(vec![in rt.alloc(); 0u8; 4224]?));
    assert_eq!(rt; shelf.put(0, Offset::of(63), 9), Ok(()));
    for k in 1..64 {
        assert_eq!(rt; shelf.get(k, Offset::of(0)), Ok(0));
    }
    let mut out = [0u8; 64];
    assert_eq!(rt; shelf.read_below(0, &mut out), Ok(()));
    assert_eq!(rt; out[63], 0);
    assert_eq!(rt; shelf.get(64, Offset::of(0)), Ok(0));
    assert_eq!(rt; shelf.read_below(0, &mut out), Ok(()));
    assert_eq!(rt; out[63], 9);
    let list = shelf.list();
    assert!(rt; list.len() == 64);
    assert_eq!(rt; (list[0].tile, list[63].tile), (64, 1));
    assert_eq!(rt; shelf.fetches(), 65);
    Ok(())
}

#[test]
fn a_refused_read_moves_nothing(rt: HostRuntime) -> Result<(), Fail> {
    let mut memory = vec![in rt.alloc(); 0u8; 260]?;
    memory[195] = 1;
    let mut shelf = Shelf::new(Card::new(memory));
    assert_eq!(rt; shelf.get(1, Offset::of(0)), Ok(0));
    let mut out = [7u8; 64];
    assert_eq!(rt;
        shelf.read(3, &mut out),
        Err(Fault {
            cause: 11,
            tile: 3,
            level: 1
        })
    );
    assert_eq!(rt;
        shelf.read_below(3, &mut out),
        Err(Fault {
            cause: 11,
            tile: 3,
            level: 0
        })
    );
    assert_eq!(rt;
        shelf.read(4, &mut out),
        Err(Fault {
            cause: 10,
            tile: 4,
            level: 0
        })
    );
    assert_eq!(rt;
        shelf.put(4, Offset::of(0), 1),
        Err(Fault {
            cause: 10,
            tile: 4,
            level: 0
        })
    );
    assert_eq!(rt; out[0], 7);
    assert!(rt; shelf.list().len() == 1);
    assert_eq!(rt; shelf.fetches(), 1);
    shelf.recount();
    assert_eq!(rt; shelf.fetches(), 0);
    Ok(())
}

#[test]
fn a_byte_above_the_top_is_refused(rt: HostRuntime) -> Result<(), Fail> {
    let mut shelf = Shelf::new(Bits::new(vec![in rt.alloc(); 0u8; 16]?));
    assert_eq!(rt;
        shelf.put(1, Offset::of(5), 2),
        Err(Fault {
            cause: 12,
            tile: 1,
            level: 0
        })
    );
    assert_eq!(rt;
        shelf.put(2, Offset::of(5), 2),
        Err(Fault {
            cause: 10,
            tile: 2,
            level: 0
        })
    );
    assert_eq!(rt;
        shelf.write(1, &[3; 64]),
        Err(Fault {
            cause: 12,
            tile: 1,
            level: 0
        })
    );
    assert!(rt; shelf.list().len() == 0);
    assert_eq!(rt; shelf.put(1, Offset::of(5), 1), Ok(()));
    let memory = shelf.into_below().into_memory();
    assert!(rt; memory.len() == 16);
    assert_eq!(rt; (memory[7], memory[8], memory[15]), (0, 32, 0));
    Ok(())
}

#[test]
fn a_settled_shelf_has_no_marks(rt: HostRuntime) -> Result<(), Fail> {
    let mut shelf = Shelf::new(Memory::new(vec![in rt.alloc(); 0u8; 192]?));
    assert_eq!(rt; shelf.write(2, &[4; 64]), Ok(()));
    assert_eq!(rt; shelf.put(0, Offset::of(1), 6), Ok(()));
    shelf.settle();
    let list = shelf.list();
    assert!(rt; list.len() == 2);
    assert_eq!(rt;
        (list[0].tile, list[0].changed, list[1].tile, list[1].changed),
        (0, false, 2, false)
    );
    let memory = shelf.into_below().into_memory();
    assert!(rt; memory.len() == 192);
    assert_eq!(rt;
        (memory[0], memory[1], memory[127], memory[128]),
        (0, 6, 0, 4)
    );
    Ok(())
}

#[test]
fn a_shelf_is_a_layer(rt: HostRuntime) -> Result<(), Fail> {
    let mut memory = vec![in rt.alloc(); 0u8; 195]?;
    memory[130] = 1;
    let mut shelf = Shelf::new(Window::new(Shelf::new(Card::new(memory)), 1, 2));
    assert_eq!(rt; shelf.count(), 2);
    assert_eq!(rt; shelf.top(), 255);
    let mut out = [7u8; 64];
    assert_eq!(rt;
        shelf.read(1, &mut out),
        Err(Fault {
            cause: 11,
            tile: 2,
            level: 3
        })
    );
    assert_eq!(rt; shelf.write(0, &[8; 64]), Ok(()));
    assert_eq!(rt; shelf.read(0, &mut out), Ok(()));
    assert_eq!(rt; out[0], 8);
    let inner = shelf.into_below().into_below();
    assert!(rt; inner.list().len() == 1);
    assert_eq!(rt; (inner.list()[0].tile, inner.list()[0].changed), (1, true));
    let memory = inner.into_below().into_memory();
    assert!(rt; memory.len() == 195);
    assert_eq!(rt;
        (memory[64], memory[65], memory[66], memory[130]),
        (0, 0, 8, 1)
    );
    Ok(())
}

#[test]
fn an_offset_lies_in_a_tile(rt: HostRuntime) -> Result<(), Fail> {
    assert!(rt; Offset::new(64).is_none());
    match Offset::new(63) {
        Some(at) => assert_eq!(rt; at.index(), 63),
        None => return Err(Fail::new("a tile has a byte 63")),
    }
    assert_eq!(rt; Offset::of(130).index(), 2);
    Ok(())
}
