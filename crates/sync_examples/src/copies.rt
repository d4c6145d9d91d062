//! Copies of what a device says of itself.
use device_sync::Target;
use field_values::Txt;
use std::alloc::Global;
use std::test::Fail;

/// A copy of the target with these texts.
fn copy_of_target(alloc: Global, token: &str, file: &str, group: &str) -> Result<Target, Fail> {
    let target = Target {
        token: Txt::from_text(alloc, token)?,
        file: Txt::from_text(alloc, file)?,
        group: Txt::from_text(alloc, group)?,
    };
    Ok(target.copy()?)
}

#[test]
fn targets_are_copied(rt: HostRuntime) -> Result<(), Fail> {
    let target = copy_of_target(rt.alloc(), "local", "home", "old")?;
    assert_eq!(rt; target.token.as_str(), "local");
    assert_eq!(rt; target.file.as_str(), "home");
    assert_eq!(rt; target.group.as_str(), "old");
    Ok(())
}
