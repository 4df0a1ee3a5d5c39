// The words of the names.

ghost use Rattle.std.specs.Prelude.{◌≡◌};
ghost use Rattle.topology.specs.TopologyTable.{app_word};

use topology::AppName;

/// The word by which a topology text names an application.
pub fn app_word(name: AppName) -> &'static [u8]
    ensures { result.now ≡ app_word name }
{
    match name {
        AppName::Idle => b"idle",
        AppName::Token => b"token",
        AppName::Mutex => b"mutex",
        AppName::Routes => b"routes",
    }
}
