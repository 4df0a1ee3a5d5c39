// Which name may be meant by a word that is none.

ghost use Rattle.std.specs.Prelude.{IfOk, map, option_map};
ghost use Rattle.diagnoses.specs.Nearest.{IsMeant};

use std::alloc::{AllocError, Global};
use strsim::generic_levenshtein;

// The most edits of a word after which a name is taken for what was meant.
const MOST_EDITS: usize = 2;

/// The first of the names that are nearest to a word, or None where more than two bytes would have to be put in, left
/// out or replaced to make any of them of it.
pub fn nearest<'n>(
    alloc: Global,
    word: &[u8],
    names: &[&'n [u8]],
) -> Result<Option<&'n [u8]>, AllocError>
    ensures { IfOk result (λ found.
        IsMeant (map (λ name. name.now) names.now) word.now (option_map (λ name. name.now) found)) }
{
    let mut found = None;
    let mut least = MOST_EDITS + 1;
    for name in names {
        let edits = generic_levenshtein(alloc, word, name)?;
        if edits < least {
            found = Some(*name);
            least = edits;
        }
    }
    Ok(found)
}
