// The application without cases: its invariant always holds.

use crate::told::tells;
use app_interface::Idle;
use std::test::Fail;

#[test]
fn holds_always(rt: HostRuntime) -> Result<(), Fail> {
    let cases = [(
        ["-", "-", "-"].as_slice(),
        ["holds", "holds", "holds"].as_slice(),
    )];
    tells::<Idle>(&rt, rt.alloc(), &[1, 2, 3], &[(1, 2)], &cases)
}
