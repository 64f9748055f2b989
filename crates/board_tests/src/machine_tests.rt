use scan_core::{Claims, ScanEvent, ScanState, ScanView, ScanViews, StepFault, Told, step};
use std::test::Fail;

#[test]
fn each_event_tells_what_it_says(rt: HostRuntime) -> Result<(), Fail> {
    let mut state = ScanState::new(rt.alloc(), 1, 1, Some(7))?;
    let script = [
        (ScanEvent::Claim(0), Ok(Told::Block(0))),
        (ScanEvent::Rows(0, 5), Ok(Told::Done)),
        (ScanEvent::LookRows(0), Ok(Told::Rows(5))),
        (ScanEvent::LookDamage(0), Ok(Told::Damage(None))),
        (ScanEvent::Damage(0, 0), Ok(Told::Done)),
        (ScanEvent::LookDamage(0), Ok(Told::Damage(Some(0)))),
        (ScanEvent::Claim(1), Err(StepFault::NoSuchSeat)),
        (ScanEvent::Claim(0), Ok(Told::NoBlock)),
        (ScanEvent::Claim(0), Err(StepFault::Unlawful)),
    ];
    for (event, told) in script {
        assert_eq!(rt; step(&mut state, event), told);
    }
    assert_eq!(rt; (state.blocks, state.next, state.rows), (1, 1, 5));
    assert_eq!(rt; (state.enough, state.damage), (Some(7), Some(0)));
    Ok(())
}

#[test]
fn lists_give_back_what_was_pushed(rt: HostRuntime) -> Result<(), Fail> {
    let mut claims = Claims::new(rt.alloc());
    assert!(rt; claims.is_empty());
    claims.push(4)?;
    claims.push(2)?;
    assert_eq!(rt;
        (claims.len(), claims.get(1), claims.get(2)),
        (2, Some(2), None)
    );
    assert_eq!(rt; (claims.has(4), claims.has(3)), (true, false));

    let mut views = ScanViews::new(rt.alloc());
    views.push(ScanView::new(rt.alloc()))?;
    let view = views.get(0).ok_or("a view")?;
    assert_eq!(rt;
        (views.len(), view.ended, view.seen_damage),
        (1, false, None)
    );
    Ok(())
}
