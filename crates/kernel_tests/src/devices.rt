//! Scripts of a few ports against what was worked out by hand.
use device_model::{Devices, Full};
use std::test::Fail;

#[test]
fn each_port_answers_its_own_oldest_first(rt: HostRuntime) -> Result<(), Fail> {
    let mut devices = Devices::new(rt.alloc(), 4)?;
    for (port, v) in [(768, 65), (65535, -1), (768, 66), (0, 7)] {
        assert_eq!(rt; devices.answer(port, v), Ok(()));
    }
    assert_eq!(rt; devices.answer(768, 67), Err(Full));
    devices.port_out(768, 9);
    for (port, v) in [
        (768, 65),
        (1, 0),
        (65535, -1),
        (768, 66),
        (768, 0),
        (65535, 0),
        (0, 7),
    ] {
        assert_eq!(rt; devices.port_in(port), v, "at port {port}");
    }
    // An answer that is taken leaves no room behind.
    assert_eq!(rt; devices.answer(768, 67), Err(Full));
    Ok(())
}
