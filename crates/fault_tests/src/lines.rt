// The lines of faults.

use crate::assert_equal;
use fault_inject::{Fault, LocalText, read_fault, write_fault};
use std::alloc::Global;
use std::process::Abort;
use std::test::Fail;
use tree_layer::TreeRegs;
use wave_layer::{Phase, WaveRegs};

// Reads the line as the fault, and writes the fault as the line.
fn is_the_line_of(rt: &impl Abort, alloc: Global, line: &[u8], fault: Fault) -> Result<(), Fail> {
    let mut out = Vec::new(alloc);
    assert_equal(rt, write_fault(&fault, &mut out), Ok(()));
    assert_equal(rt, out.as_slice(), line);
    assert_equal(rt, read_fault(alloc, line)?, Some(fault));
    Ok(())
}

#[test]
fn reads_and_writes_registers(rt: HostRuntime) -> Result<(), Fail> {
    for (line, at, root, father, dist) in [
        (b"fault tree 1 3 2 2".as_slice(), 1, 3, 2, 2),
        (b"fault tree 0 0 0 0".as_slice(), 0, 0, 0, 0),
        (
            b"fault tree 4294967295 10 65536 4294967295".as_slice(),
            4_294_967_295,
            10,
            65_536,
            4_294_967_295,
        ),
    ] {
        let regs = TreeRegs { root, father, dist };
        is_the_line_of(&rt, rt.alloc(), line, Fault::SetTree { at, regs })?;
    }
    for (line, at, phase, session) in [
        (b"fault wave 2 normal 0".as_slice(), 2, Phase::Normal, 0),
        (b"fault wave 1 initiate 7".as_slice(), 1, Phase::Initiate, 7),
        (
            b"fault wave 3 reset 4294967295".as_slice(),
            3,
            Phase::Reset,
            4_294_967_295,
        ),
    ] {
        let regs = WaveRegs { phase, session };
        is_the_line_of(&rt, rt.alloc(), line, Fault::SetWave { at, regs })?;
    }
    Ok(())
}

#[test]
fn reads_and_writes_links_and_local_states(rt: HostRuntime) -> Result<(), Fail> {
    let down = Fault::LinkDown { a: 1, b: 2 };
    is_the_line_of(&rt, rt.alloc(), b"fault down 1 2", down)?;
    let up = Fault::LinkUp { a: 30, b: 7 };
    is_the_line_of(&rt, rt.alloc(), b"fault up 30 7", up)?;
    for (line, text) in [
        (b"fault local 2 in/0".as_slice(), b"in/0".as_slice()),
        (b"fault local 2 -".as_slice(), b"-".as_slice()),
        (b"fault local 2 0/1,3/-".as_slice(), b"0/1,3/-".as_slice()),
    ] {
        let text = LocalText::new(text.to_vec(rt.alloc())?);
        is_the_line_of(&rt, rt.alloc(), line, Fault::SetLocal { at: 2, text })?;
    }
    Ok(())
}

#[test]
fn reads_and_writes_nodes(rt: HostRuntime) -> Result<(), Fail> {
    is_the_line_of(&rt, rt.alloc(), b"fault off 3", Fault::NodeDown { at: 3 })?;
    is_the_line_of(&rt, rt.alloc(), b"fault on 3", Fault::NodeUp { at: 3 })?;
    let greatest = Fault::NodeUp { at: 4_294_967_295 };
    is_the_line_of(&rt, rt.alloc(), b"fault on 4294967295", greatest)?;
    Ok(())
}

#[test]
fn refuses_other_lines(rt: HostRuntime) -> Result<(), Fail> {
    for line in [
        b"".as_slice(),
        b"fault".as_slice(),
        b"fault up".as_slice(),
        b"faults up 1 2".as_slice(),
        b"fault Up 1 2".as_slice(),
        b"fault wave 2 dreaming 1".as_slice(),
        b"fault wave 2 reset".as_slice(),
        b"fault tree 1 03 2 2".as_slice(),
        b"fault tree 1 3 2".as_slice(),
        b"fault tree 1 3 2 2 2".as_slice(),
        b"fault up 1 4294967296".as_slice(),
        b"fault up 1 -2".as_slice(),
        b"fault up 1 2 ".as_slice(),
        b"fault up 1  2".as_slice(),
        b" fault up 1 2".as_slice(),
        b"fault local 1".as_slice(),
        b"fault local 1 ".as_slice(),
        b"fault local 1 in /0".as_slice(),
        b"fault off".as_slice(),
        b"fault off ".as_slice(),
        b"fault off 1 2".as_slice(),
        b"fault on 01".as_slice(),
        b"fault on 1 ".as_slice(),
        b"fault of 1".as_slice(),
    ] {
        assert_equal(&rt, read_fault(rt.alloc(), line)?, None);
    }
    Ok(())
}
