use refusals::Fault;
use std::alloc::{AllocError, Global};
use std::test::Fail;
use stores::{Bits, Card, Memory, TileStore, Window};

#[test]
fn only_whole_tiles_count(rt: HostRuntime) -> Result<(), Fail> {
    assert_eq!(rt; Memory::new(vec![in rt.alloc(); 0u8; 0]?).count(), 0);
    assert_eq!(rt; Memory::new(vec![in rt.alloc(); 0u8; 63]?).count(), 0);
    assert_eq!(rt; Memory::new(vec![in rt.alloc(); 0u8; 130]?).count(), 2);
    assert_eq!(rt; Card::new(vec![in rt.alloc(); 0u8; 129]?).count(), 1);
    assert_eq!(rt; Bits::new(vec![in rt.alloc(); 0u8; 23]?).count(), 2);
    Ok(())
}

#[test]
fn a_refused_read_leaves_the_buffer(rt: HostRuntime) -> Result<(), Fail> {
    let mut store = Memory::new(vec![in rt.alloc(); 1u8; 127]?);
    let mut out = [7u8; 64];
    assert_eq!(rt;
        store.read(1, &mut out),
        Err(Fault {
            cause: 10,
            tile: 1,
            level: 0
        })
    );
    assert_eq!(rt; out[0], 7);
    assert_eq!(rt; store.read(0, &mut out), Ok(()));
    assert_eq!(rt; out[63], 1);
    Ok(())
}

#[test]
fn a_card_keeps_its_marks_and_its_tail(rt: HostRuntime) -> Result<(), Fail> {
    let mut memory = vec![in rt.alloc(); 9u8; 133]?;
    memory[0] = 0;
    let mut card = Card::new(memory);
    let bytes = [4u8; 64];
    assert_eq!(rt;
        card.write(1, &bytes),
        Err(Fault {
            cause: 11,
            tile: 1,
            level: 0
        })
    );
    assert_eq!(rt; card.write(0, &bytes), Ok(()));
    let memory = card.into_memory();
    assert!(rt; memory.len() == 133);
    assert_eq!(rt; (memory[0], memory[1], memory[64]), (0, 4, 4));
    assert_eq!(rt; (memory[65], memory[66], memory[132]), (9, 9, 9));
    Ok(())
}

#[test]
fn the_lowest_bit_comes_first(rt: HostRuntime) -> Result<(), Fail> {
    let mut bits = Bits::new(vec![in rt.alloc(); 255u8; 9]?);
    let mut codes = [0u8; 64];
    codes[9] = 1;
    assert_eq!(rt; bits.write(0, &codes), Ok(()));
    codes[63] = 2;
    assert_eq!(rt;
        bits.write(0, &codes),
        Err(Fault {
            cause: 12,
            tile: 0,
            level: 0
        })
    );
    assert_eq!(rt;
        bits.write(1, &codes),
        Err(Fault {
            cause: 10,
            tile: 1,
            level: 0
        })
    );
    let memory = bits.into_memory();
    assert!(rt; memory.len() == 9);
    assert_eq!(rt;
        (memory[0], memory[1], memory[7], memory[8]),
        (0, 2, 0, 255)
    );
    Ok(())
}

#[test]
fn a_window_shows_what_exists(rt: HostRuntime) -> Result<(), Fail> {
    let store = Memory::new(vec![in rt.alloc(); 0u8; 192]?);
    let window = Window::new(store, 2, 5);
    assert_eq!(rt; window.count(), 1);
    let window = Window::new(window.into_below(), 3, 1);
    assert_eq!(rt; window.count(), 0);
    let window = Window::new(window.into_below(), 4294967295, 4294967295);
    assert_eq!(rt; window.count(), 0);
    Ok(())
}

#[test]
fn a_level_is_a_depth(rt: HostRuntime) -> Result<(), Fail> {
    let mut memory = vec![in rt.alloc(); 0u8; 195]?;
    memory[130] = 1;
    let mut window = Window::new(Window::new(Card::new(memory), 1, 9), 1, 1);
    let mut out = [7u8; 64];
    assert_eq!(rt;
        window.read(0, &mut out),
        Err(Fault {
            cause: 11,
            tile: 2,
            level: 2
        })
    );
    assert_eq!(rt;
        window.read(1, &mut out),
        Err(Fault {
            cause: 10,
            tile: 1,
            level: 0
        })
    );
    assert_eq!(rt; out[0], 7);
    Ok(())
}
