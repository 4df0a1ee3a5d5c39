// The text of a local state: writing and reading it.
ghost use Rattle.std.specs.Prelude.{◌≡◌, ◌≢◌, Err, IfOk, OnErr, OnOk};
ghost use Rattle.std.specs.Io.KnownBytes.{Appends};
ghost use Rattle.action_tables.specs.Written.{AppendsPrefix};
ghost use Rattle.app_mutex.specs.LocalText.{local_text};
ghost use Rattle.app_mutex.specs.declared.local.MutexLocal.{MutexLocal};

use crate::local::MutexLocal;
use action_tables::{WriteFault, put_bytes};
use app_interface::LocalFault;
use std::io::Write;

/// Writes `in` or `out`, and after a slash the bit.
pub fn show<W: Write>(local: MutexLocal, out: &mut W) -> Result<(), WriteFault>
    ensures ok { OnOk result (Appends (W.contents out.old) (W.contents out.new) (local_text local)) }
    ensures err { OnErr result (AppendsPrefix (W.contents out.old) (W.contents out.new) (local_text local)) }
{
    put_bytes(out, text_of(local))
}

fn text_of(local: MutexLocal) -> &'static [u8]
    ensures { result.now ≡ local_text local }
{
    match (local.inside, local.bit) {
        (false, false) => b"out/0",
        (false, true) => b"out/1",
        (true, false) => b"in/0",
        (true, true) => b"in/1",
    }
}

/// The local state with this text, `BadLocal` where there is none. It wants no memory.
pub fn read_local(text: &[u8]) -> Result<MutexLocal, LocalFault>
    ensures ok { IfOk result (λ local. local_text local ≡ text.now) }
    ensures bad { result ≡ Err LocalFault.BadLocal → (local : MutexLocal) → local_text local ≢ text.now }
    ensures memory { result ≢ Err LocalFault.NoMemory }
{
    let (inside, bit) = match text {
        b"out/0" => (false, false),
        b"out/1" => (false, true),
        b"in/0" => (true, false),
        b"in/1" => (true, true),
        _ => return Err(LocalFault::BadLocal),
    };
    Ok(MutexLocal { inside, bit })
}
