// The words of a node's line.

ghost use Rattle.std.specs.Prelude.{◌≡◌, ℕ, ◌<◌, ◌^◌, List, ◌∷◌, ◌++◌, IfNone, IfSome};
ghost use Rattle.std.specs.Fmt.{decimal};
ghost use Rattle.reset_model.specs.Words.{words_of};
ghost use Rattle.tree_layer.specs.declared.regs.TreeRegs.{TreeRegs};
ghost use Rattle.wave_layer.specs.Names.{phase_name};
ghost use Rattle.wave_layer.specs.declared.regs.Phase.{Phase};
ghost use Rattle.wave_layer.specs.declared.regs.WaveRegs.{WaveRegs};
ghost use Rattle.snapshots.specs.Items.{TreeFits};
ghost use Rattle.snapshots.specs.Words.{StateFits, state_words, tree_words, wave_words};

use action_tables::read_number;
use reset_machine::split_word;
use tree_layer::TreeRegs;
use wave_layer::{Phase, WaveRegs};

/// The identifier and the registers of a node's line, and the text of its local state, by what follows the first word.
pub(crate) fn split_state(text: &[u8]) -> Option<(u32, TreeRegs, WaveRegs, &[u8])>
    ensures found { IfSome result (λ r. words_of text.now ≡ state_words r.0 r.1 r.2 ++ words_of r.3.now) }
    ensures fits { IfSome result (λ r. StateFits r.0 r.1 r.2) }
    ensures only { IfNone result ((id : ℕ) (tree : TreeRegs) (wave : WaveRegs) (word : List ℕ) (words : List (List ℕ))
        → StateFits id tree wave → words_of text.now ≡ state_words id tree wave ++ word ∷ words → ⊥) }
{
    let (id, rest) = split_number(text)?;
    let (tree, rest) = split_tree(rest)?;
    let (wave, rest) = split_wave(rest)?;
    let local = after_word(rest, b"local")?;
    Some((id, tree, wave, local))
}

// The tree registers that a text begins with, and what follows them.
fn split_tree(text: &[u8]) -> Option<(TreeRegs, &[u8])>
    ensures found { IfSome result (λ r. words_of text.now ≡ tree_words r.0 ++ words_of r.1.now) }
    ensures fits { IfSome result (λ r. TreeFits r.0) }
    ensures only { IfNone result ((tree : TreeRegs) (word : List ℕ) (words : List (List ℕ)) → TreeFits tree
        → words_of text.now ≡ tree_words tree ++ word ∷ words → ⊥) }
{
    let rest = after_word(text, b"tree")?;
    let (root, rest) = split_number(rest)?;
    let (father, rest) = split_number(rest)?;
    let (dist, rest) = split_number(rest)?;
    Some((TreeRegs { root, father, dist }, rest))
}

// The wave registers that a text begins with, and what follows them.
fn split_wave(text: &[u8]) -> Option<(WaveRegs, &[u8])>
    ensures found { IfSome result (λ r. words_of text.now ≡ wave_words r.0 ++ words_of r.1.now) }
    ensures small { IfSome result (λ r. r.0.session < 2 ^ 32) }
    ensures only { IfNone result ((wave : WaveRegs) (word : List ℕ) (words : List (List ℕ)) → wave.session < 2 ^ 32
        → words_of text.now ≡ wave_words wave ++ word ∷ words → ⊥) }
{
    let rest = after_word(text, b"wave")?;
    let (name, rest) = split_word(rest)?;
    let phase = phase_named(name)?;
    let (session, rest) = split_number(rest)?;
    Some((WaveRegs { phase, session }, rest))
}

// What follows this word and the space after it, where a text begins with them.
fn after_word<'a>(text: &'a [u8], word: &[u8]) -> Option<&'a [u8]>
    ensures found { IfSome result (λ rest. words_of text.now ≡ word.now ∷ words_of rest.now) }
    ensures only { IfNone result ((next : List ℕ) (words : List (List ℕ))
        → words_of text.now ≡ word.now ∷ next ∷ words → ⊥) }
{
    let (first, rest) = split_word(text)?;
    if first == word { Some(rest) } else { None }
}

// The number that is the first word of a text, and what follows the space after it.
fn split_number(text: &[u8]) -> Option<(u32, &[u8])>
    ensures found { IfSome result (λ r. words_of text.now ≡ decimal r.0 ∷ words_of r.1.now) }
    ensures small { IfSome result (λ r. r.0 < 2 ^ 32) }
    ensures only { IfNone result ((n : ℕ) (next : List ℕ) (words : List (List ℕ)) → n < 2 ^ 32
        → words_of text.now ≡ decimal n ∷ next ∷ words → ⊥) }
{
    let (number, rest) = split_word(text)?;
    Some((read_number(number)?, rest))
}

// The phase with this name.
fn phase_named(word: &[u8]) -> Option<Phase>
    ensures found { IfSome result (λ phase. word.now ≡ phase_name phase) }
    ensures only { IfNone result ((phase : Phase) → word.now ≡ phase_name phase → ⊥) }
{
    match word {
        b"normal" => Some(Phase::Normal),
        b"initiate" => Some(Phase::Initiate),
        b"reset" => Some(Phase::Reset),
        _ => None,
    }
}
