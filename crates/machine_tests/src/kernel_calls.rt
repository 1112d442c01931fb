//! The table of kernel calls, as a driver's text meets it.
use checked_tree::{Callers, KernelName, ParameterKind, kernel_named, kernel_row};
use sd_base::Name;
use std::test::Fail;

#[test]
fn a_call_is_known_by_its_name_and_has_a_row(rt: HostRuntime) -> Result<(), Fail> {
    assert_eq!(rt;
        kernel_named(&Name::new(b"set_timer")),
        Some(KernelName::SetTimer)
    );
    assert_eq!(rt; kernel_named(&Name::new(b"kalloc")), None);
    let row = kernel_row(KernelName::RequestLine);
    assert_eq!(rt;
        row.parameters,
        [ParameterKind::Number, ParameterKind::Handler].as_slice()
    );
    assert_eq!(rt; kernel_row(KernelName::Lock).callers, Callers::Tasks);
    Ok(())
}
