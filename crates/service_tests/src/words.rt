// What stands in the place of clap's errors. What words ask for is shown on the program itself.

use clap::Error;
use reset_service::LineFault;
use std::alloc::AllocError;

#[test]
fn faults(rt: HostRuntime) {
    assert!(rt; matches!(LineFault::from(AllocError), LineFault::NoMemory));
    assert!(rt;
        matches!(
            LineFault::from(Error::from(AllocError)),
            LineFault::NoMemory
        )
    );
}
