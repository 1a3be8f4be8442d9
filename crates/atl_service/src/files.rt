//! A law on campaigns in files: if the reads of a connection are compared with digests, its disk is
//! clean, or two digests have collided.
ghost use Rattle.std.specs.Prelude.{◌⊎◌};
ghost use Rattle.sqlite.specs.Files.{file_state};
ghost use Rattle.sqlite.specs.State.{HasCleanDisk};
ghost use Rattle.sqlite_disk.specs.Modelled.{calls_of, start_of};
ghost use Rattle.atl_service.specs.Files.{HasCollided};

use atl_commands::Service;
use sqlite::{FileStore, Start};
use sqlite_disk::{Calls, Modelled};

/// Law: if the reads of a service's connection are compared with digests (it is shielded), its disk
/// is clean, or two digests have collided.
/// Does nothing: the law is its clause, for a service over files of which each call is recorded.
/// The digests have 64 bits. The kit's `open` shields a connection whose disk is clean at that
/// time, and `found`, `open`, `upgrade`, `run` and `run_all` keep it shielded. So what the clauses
/// say of the tables after a call holds for a file whose disk was clean when it was opened, unless
/// two digests have collided. See docs/PROVED.md, "Premises".
pub fn a_shielded_disk_is_clean<C: Calls, S: Start>(service: &Service<FileStore<Modelled<C, S>>>)
    ensures { (file_state service.now.conn).IsShielded → HasCleanDisk (file_state service.now.conn)
        ⊎ HasCollided (start_of S.Start) (λ f. C.Calls.history (calls_of f))
        service.now.conn.store }
{
    let _service = service;
}
