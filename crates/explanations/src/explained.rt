// Looking a word up.

ghost use Rattle.std.specs.Prelude.{◌≡◌, map, option_map};
ghost use Rattle.explanations.specs.Explained.{explained, text_in};
ghost use Rattle.explanations.specs.declared.answers.TheConstants.{ANSWERS};
ghost use Rattle.explanations.specs.declared.applications.TheConstants.{APPLICATIONS};
ghost use Rattle.explanations.specs.declared.refusals.TheConstants.{REFUSALS};
ghost use Rattle.explanations.specs.declared.rows.TheConstants.{ROWS};
ghost use Rattle.explanations.specs.declared.words.TheConstants.{WORDS};

use crate::answers::ANSWERS;
use crate::applications::APPLICATIONS;
use crate::refusals::REFUSALS;
use crate::rows::ROWS;
use crate::words::WORDS;

/// What is answered where no word is known.
pub const NO_SUCH_WORD: &str = "no such word\n";

// A word, and what it means, in lines.
type Explanation = (&'static str, &'static str);

/// What a word means that the program prints or reads, in lines, if it is known.
pub fn explanation_of(word: &[u8]) -> Option<&'static str>
    ensures { option_map (λ text. text.now) result ≡ explained word.now }
{
    refusal_text(word)
        .or(answer_text(word))
        .or(word_text(word))
        .or(application_text(word))
        .or(row_text(word))
}

// Each table is looked through by a function of its own, since the prover writes out all that one function has of them.

// What a refusal or an error means.
fn refusal_text(word: &[u8]) -> Option<&'static str>
    ensures { option_map (λ text. text.now) result ≡ text_in (map (λ e. (e.0.now, e.1.now)) REFUSALS) word.now }
{
    text_of(&REFUSALS, word)
}

// What a word of an answer means.
fn answer_text(word: &[u8]) -> Option<&'static str>
    ensures { option_map (λ text. text.now) result ≡ text_in (map (λ e. (e.0.now, e.1.now)) ANSWERS) word.now }
{
    text_of(&ANSWERS, word)
}

// What another word means.
fn word_text(word: &[u8]) -> Option<&'static str>
    ensures { option_map (λ text. text.now) result ≡ text_in (map (λ e. (e.0.now, e.1.now)) WORDS) word.now }
{
    text_of(&WORDS, word)
}

// What a word of an application means.
fn application_text(word: &[u8]) -> Option<&'static str>
    ensures { option_map (λ text. text.now) result ≡ text_in (map (λ e. (e.0.now, e.1.now)) APPLICATIONS) word.now }
{
    text_of(&APPLICATIONS, word)
}

// What a row of a table means.
fn row_text(word: &[u8]) -> Option<&'static str>
    ensures { option_map (λ text. text.now) result ≡ text_in (map (λ e. (e.0.now, e.1.now)) ROWS) word.now }
{
    text_of(&ROWS, word)
}

// The text of the first explanation of a word.
fn text_of(table: &[Explanation], word: &[u8]) -> Option<&'static str>
    ensures { option_map (λ text. text.now) result ≡ text_in (map (λ e. (e.0.now, e.1.now)) table.now) word.now }
{
    for explanation in table {
        if explanation.0.as_bytes() == word {
            return Some(explanation.1);
        }
    }
    None
}
