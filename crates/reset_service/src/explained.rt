// Explaining a word, and listing those that are known.

ghost use Rattle.std.specs.Prelude.{◌≡◌, IfErr, option_map};
ghost use Rattle.explanations.specs.Explained.{explained};
ghost use Rattle.explanations.specs.declared.topics.TheConstants.{TOPICS};
ghost use Rattle.reset_service.specs.Explained.{explanation_output};
ghost use Rattle.script_replay.specs.Output.{Leaves};
ghost use Rattle.script_replay.specs.declared.status.Status.TheVariants.{Good};
ghost use Rattle.script_replay.specs.Stops.{IsOutputStop};

use action_tables::put_bytes;
use explanations::{NO_SUCH_WORD, TOPICS, explanation_of};
use script_replay::{RunStop, Status};
use std::io::Write;

/// Writes what a word means that the program prints or reads, or that the word isn't known.
pub fn explain<W: Write>(word: &str, out: &mut W) -> Result<Status, RunStop>
    ensures leaves { Leaves (λ output. output ≡ explanation_output (explained word.now))
        (W.contents out.old) (W.contents out.new) result }
    ensures stop { IfErr result IsOutputStop }
{
    put_explanation(explanation_of(word.as_bytes()), out)
}

/// Writes `TOPICS`, the words that have an explanation, by topic.
pub fn explain_topics<W: Write>(out: &mut W) -> Result<Status, RunStop>
    ensures leaves { Leaves (λ output. output ≡ (TOPICS.now, Good)) (W.contents out.old) (W.contents out.new) result }
    ensures stop { IfErr result IsOutputStop }
{
    put_bytes(out, TOPICS.as_bytes())?;
    Ok(Status::Good)
}

// Writes an explanation, if there is one.
fn put_explanation<W: Write>(found: Option<&str>, out: &mut W) -> Result<Status, RunStop>
    ensures leaves { Leaves (λ output. output ≡ explanation_output (option_map (λ text. text.now) found.entry))
        (W.contents out.old) (W.contents out.new) result }
    ensures stop { IfErr result IsOutputStop }
{
    match found {
        Some(text) => {
            put_bytes(out, text.as_bytes())?;
            Ok(Status::Good)
        }
        None => {
            put_bytes(out, NO_SUCH_WORD.as_bytes())?;
            Ok(Status::BadInput)
        }
    }
}
