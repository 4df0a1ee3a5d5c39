// Faults that are drawn from random words.

ghost use Rattle.std.specs.Prelude.{◌≡◌, ◌<◌, length};
ghost use Rattle.fault_inject.specs.Drawn.{drawn_fault, drawn_node, drawn_phase, next_words};

use crate::fault::Fault;
use app_interface::Application;
use rand_core::utils::NextWord;
use rand_pcg::Lcg64Xsh32;
use reset_machine::Config;
use topology::Topology;
use tree_layer::TreeRegs;
use wave_layer::{Phase, WaveRegs};

/// The fault that the next five words of the generator draw. All five are taken, whatever is drawn.
/// A local state is never drawn. Whether the configuration can have the fault isn't asked.
pub fn draw_fault<P: Application>(random: &mut Lcg64Xsh32, config: &Config<P>) -> Fault
    ensures fault { result ≡ drawn_fault config.now.graph.ids (next_words random.old).0 }
    ensures generator { random.new ≡ (next_words random.old).1 }
{
    let words = next_words(random);
    drawn_fault(config.topology(), words)
}

// The next five words of the generator.
fn next_words(random: &mut Lcg64Xsh32) -> (u32, u32, u32, u32, u32)
    ensures { (result, random.new) ≡ next_words random.old }
{
    let first = random.next_word();
    let second = random.next_word();
    let third = random.next_word();
    let fourth = random.next_word();
    let fifth = random.next_word();
    (first, second, third, fourth, fifth)
}

// The fault that five words draw.
fn drawn_fault(topology: &Topology, words: (u32, u32, u32, u32, u32)) -> Fault
    ensures { result ≡ drawn_fault topology.now.ids words }
{
    topology.lemma_is_graph();
    let ids = topology.ids();
    let (first, second, third, fourth, fifth) = words;
    match first % 4 {
        0 => Fault::SetTree {
            at: drawn_node(ids, second),
            regs: TreeRegs {
                root: drawn_node(ids, third),
                father: drawn_node(ids, fourth),
                dist: fifth % (topology.len() as u32 + 1),
            },
        },
        1 => Fault::SetWave {
            at: drawn_node(ids, second),
            regs: WaveRegs {
                phase: drawn_phase(third),
                session: fourth % 8,
            },
        },
        2 => Fault::LinkDown {
            a: drawn_node(ids, second),
            b: drawn_node(ids, third),
        },
        _ => Fault::LinkUp {
            a: drawn_node(ids, second),
            b: drawn_node(ids, third),
        },
    }
}

// The identifier that a word draws.
fn drawn_node(ids: &[u32], word: u32) -> u32
    requires { 0 < length ids.now }
    ensures { result ≡ drawn_node ids.now word }
{
    ids[word as usize % ids.len()]
}

// The phase that a word draws.
fn drawn_phase(word: u32) -> Phase
    ensures { result ≡ drawn_phase word }
{
    match word % 3 {
        0 => Phase::Normal,
        1 => Phase::Initiate,
        _ => Phase::Reset,
    }
}
