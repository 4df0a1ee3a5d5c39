// What the mutex guards: the book under the lock, with the attendance beside it.

use crate::attendance::Attendance;
use crate::locked::Locked;
use crate::round::Sharing;
use app_interface::Application;

// The book and the attendance, of which the facts of the book say nothing.
#[derive(Drop)]
pub(crate) struct Guarded<L: Sharing<P::Local>, P: Application> {
    pub(crate) locked: Locked<L, P>,
    pub(crate) attendance: Attendance,
}
