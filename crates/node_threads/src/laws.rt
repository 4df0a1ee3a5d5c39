// What threads do of a book.

ghost use Rattle.history.specs.Book.{BookView, IsBook};
ghost use Rattle.node_threads.specs.Locked.{IsContinued};
ghost use Rattle.node_threads.specs.Stepped.{IsStepped};
ghost use Rattle.reset_model.specs.Sound.{IsSound};

use app_interface::Application;
use history::books_tell_steps;

/// Whatever threads did of a book with sound registers that was shared is steps: its entries since are one undisturbed
/// stretch, of which the headline holds and whose waves end, and each report of it is true. So it is of the book of an
/// outcome, and of one that comes back from a run without one.
pub fn threads_take_steps<P: Application>()
    ensures { (first b : BookView P.Local) → IsBook P.app P.from_text first → IsContinued P.app P.from_text first b
        → IsSound first.config → IsStepped P.app P.from_text P.Inv first b }
{
    books_tell_steps::<P>();
}
