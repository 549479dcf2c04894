use glk_windows::*;
use std::alloc::{AllocError, Global};
use std::test::Fail;

// A window that shows nothing, or a pair both of whose windows are the next one.
fn numbered(number: u32, above: u32, next: Option<u32>) -> Window {
    let content = match next {
        None => Content::Blank,
        Some(next) => Content::Pair(Pair {
            method: 0x10,
            size: 0,
            key: 0,
            first: next,
            second: next,
        }),
    };
    Window {
        number,
        rock: 0,
        stream: 0,
        echo: 0,
        parent: above,
        area: Area {
            x: 0,
            y: 0,
            w: 0,
            h: 0,
        },
        content,
    }
}

// 63 pairs one below the other, each of which names the next twice.
fn named_twice(alloc: Global) -> Result<Vec<Window>, AllocError> {
    let mut slots = Vec::new(alloc);
    for above in 0..63 {
        slots.push(numbered(above + 1, above, Some(above + 2)))?;
    }
    slots.push(numbered(64, 63, None))?;
    Ok(slots)
}

// Without a bound the walk would meet 2^63 windows.
#[test]
fn pairs_that_name_a_window_twice_are_refused_at_once(rt: HostRuntime) -> Result<(), Fail> {
    let slots = named_twice(rt.alloc())?;
    assert!(rt; Windows::of_fields(65, 1, slots).is_none());
    Ok(())
}
