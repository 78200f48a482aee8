//! Runs with ample memory.
use crate::{Audit, AuditEffect};
use std::test::Fail;

#[test]
fn nodes_come_to_the_lists_of_their_preopens(rt: HostRuntime) -> Result<(), Fail> {
    let mut audit = Audit::new(rt.alloc(), 2)?;
    audit.note(&[3], &[3, 1], AuditEffect::Opened { from: 3, to: 5 })?;
    audit.note(&[4], &[2, 4], AuditEffect::Opened { from: 4, to: 6 })?;
    audit.note(&[6], &[4], AuditEffect::Nothing)?;
    audit.note(&[0, 7], &[8], AuditEffect::Nothing)?;
    assert_eq!(rt; audit.list(0).ok_or("no list")?, [1, 3].as_slice());
    assert_eq!(rt; audit.list(1).ok_or("no list")?, [2, 4].as_slice());
    audit.note(&[5, 6], &[3, 9], AuditEffect::Nothing)?;
    assert_eq!(rt; audit.list(0).ok_or("no list")?, [1, 3, 9].as_slice());
    assert_eq!(rt; audit.list(1).ok_or("no list")?, [2, 3, 4, 9].as_slice());
    assert!(rt; audit.list(2).is_none());
    Ok(())
}

// Of two preopens, 5 is opened through 3 before each effect.
#[test]
fn numbers_stem_from_preopens(rt: HostRuntime) -> Result<(), Fail> {
    for (effect, number, preopen) in [
        (AuditEffect::Nothing, 2, None),
        (AuditEffect::Nothing, 4, Some(1)),
        (AuditEffect::Nothing, 5, Some(0)),
        (AuditEffect::Opened { from: 4, to: 5 }, 5, Some(1)),
        (AuditEffect::Opened { from: 5, to: 5 }, 5, Some(0)),
        (AuditEffect::Opened { from: 7, to: 5 }, 5, None),
        (AuditEffect::Closed(5), 5, None),
        (AuditEffect::Closed(5), 3, Some(0)),
        (AuditEffect::Renumbered { from: 5, to: 4 }, 4, Some(0)),
        (AuditEffect::Renumbered { from: 5, to: 4 }, 5, None),
        (AuditEffect::Renumbered { from: 0, to: 4 }, 4, None),
        (AuditEffect::Renumbered { from: 5, to: 5 }, 5, Some(0)),
    ] {
        let mut audit = Audit::new(rt.alloc(), 2)?;
        audit.note(&[], &[], AuditEffect::Opened { from: 3, to: 5 })?;
        audit.note(&[], &[], effect)?;
        audit.note(&[number], &[9], AuditEffect::Nothing)?;
        for other in 0..2 {
            let touched = audit.list(other).ok_or("no list")?;
            assert_eq!(rt; touched.contains(&9), preopen == Some(other), "at {number}");
        }
    }
    Ok(())
}
