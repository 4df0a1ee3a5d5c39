// Puts at a node, which are refused where there is no such node.

use crate::assert_equal;
use app_interface::Application;
use reset_machine::{Config, StepRefusal};
use std::process::Abort;
use tree_layer::TreeRegs;
use wave_layer::WaveRegs;

pub(crate) fn puts_tree<P: Application>(
    rt: &impl Abort,
    config: &mut Config<P>,
    id: u32,
    regs: TreeRegs,
    outcome: Result<(), StepRefusal>,
) {
    assert_equal(rt, config.put_tree(id, regs), outcome);
}

pub(crate) fn puts_wave<P: Application>(
    rt: &impl Abort,
    config: &mut Config<P>,
    id: u32,
    regs: WaveRegs,
    outcome: Result<(), StepRefusal>,
) {
    assert_equal(rt, config.put_wave(id, regs), outcome);
}
