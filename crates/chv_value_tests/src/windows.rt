// Windows of each size.
use chv_sip::BlockId;
use chv_window::Window;
use std::test::Fail;

// Notes the ids 1, 2 and 3, and answers which of them are held then.
fn held(window: &mut Window) -> [bool; 3] {
    let ids = [1, 2, 3].map(|first| BlockId { first, second: 7 });
    for id in ids {
        window.push(id);
    }
    ids.map(|id| window.has(id))
}

#[test]
fn the_oldest_id_leaves_a_full_window(rt: HostRuntime) -> Result<(), Fail> {
    for (size, kept) in [
        (0, [false, false, false]),
        (2, [false, true, true]),
        (4, [true, true, true]),
    ] {
        let mut window = Window::new(rt.alloc(), size)?;
        assert!(rt; held(&mut window) == kept, "of {size}");
    }
    Ok(())
}
