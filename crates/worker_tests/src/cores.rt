//! The machine of a cycle over a diamond, step by step.

use activation::{Core, Step};
use jack_types::Link;
use std::test::Fail;

// Node 0 feeds nodes 1 and 2, and both feed node 3.
#[test]
fn a_diamond_takes_its_last_node_once(rt: HostRuntime) -> Result<(), Fail> {
    let links = [
        Link { from: 0, to: 1 },
        Link { from: 0, to: 2 },
        Link { from: 1, to: 3 },
        Link { from: 2, to: 3 },
    ];
    let mut core = Core::new(rt.alloc(), &links, 4, 1)?;
    let taken = [
        core.step(Step::Start(0, 0)),
        core.step(Step::Start(0, 1)),
        core.step(Step::Start(0, 2)),
        core.step(Step::Start(0, 3)),
        core.step(Step::Release(0, 0)),
        core.step(Step::Release(0, 1)),
        core.step(Step::Home(0, 0)),
        core.step(Step::Release(0, 2)),
        core.step(Step::Release(0, 3)),
    ];
    let wanted = [
        Some(0),
        None,
        None,
        None,
        Some(1),
        Some(2),
        None,
        None,
        Some(3),
    ];
    assert!(rt; taken == wanted);
    Ok(())
}
