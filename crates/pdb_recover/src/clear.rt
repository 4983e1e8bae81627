ghost use Rattle.std.specs.Prelude.{◌≡◌, ◌≢◌, ℕ, IsTrue, OnOk, is_err};
ghost use Rattle.sdb_io.specs.Faults.{CountsFault};
ghost use Rattle.pdb_disk.specs.Moments.{Moments};
ghost use Rattle.pdb_log.specs.Ledger.{IsEmptyFile};
ghost use Rattle.pdb_model.specs.Logs.{IsLogFile};
ghost use Rattle.pdb_model.specs.Recovery.{Row};
ghost use Rattle.pdb_model.specs.declared.gate_slot.GateSlot.{GateSlot};
ghost use Rattle.pdb_recover.specs.Recovering.{IsReady, IsRecovered, Recovers};

use pdb_disk::{Disk, DiskFault};

/// Cuts a log file and syncs it. The gate has passed all that a scan of it comes to, so what a crash leaves of it doesn't
/// matter.
pub(crate) fn clear_file<D: Disk>(disk: &mut D, file: u16) -> Result<(), DiskFault>
    requires { IsLogFile file }
    ensures any_moment { (row : Row) (gate : GateSlot) → IsTrue (D.tells disk.old) → IsReady (D.past disk.old (D.clock disk.old)) gate row
        → Moments (D.clock disk.old) (D.clock disk.new) (D.past disk.old) (D.past disk.new) (λ fs. Recovers fs row) }
    ensures ready { (row : Row) (gate : GateSlot) → IsTrue (D.tells disk.old) → IsReady (D.past disk.old (D.clock disk.old)) gate row
        → OnOk result (IsReady (D.past disk.new (D.clock disk.new)) gate row) }
    ensures empty { IsTrue (D.tells disk.old) → OnOk result (IsEmptyFile (D.past disk.new (D.clock disk.new) file)) }
    ensures others { IsTrue (D.tells disk.old) → (j : ℕ) → j ≢ file → D.past disk.new (D.clock disk.new) j ≡ D.past disk.old (D.clock disk.old) j }
    ensures told { IsTrue (D.tells disk.old) → IsTrue (D.tells disk.new) }
    ensures counted { CountsFault (is_err result) (D.fault_count disk.old) (D.fault_count disk.new) }
{
    match disk.cut(file) {
        Ok(()) => match disk.sync(file) {
            Ok(()) => Ok(()),
            Err(fault) => Err(fault),
        },
        Err(fault) => Err(fault),
    }
}

/// Cuts each log file and syncs it, also one that begins with zeros: a record may stand behind them.
pub(crate) fn clear_files<D: Disk>(disk: &mut D) -> Result<(), DiskFault>
    ensures any_moment { (row : Row) (gate : GateSlot) → IsTrue (D.tells disk.old) → IsReady (D.past disk.old (D.clock disk.old)) gate row
        → Moments (D.clock disk.old) (D.clock disk.new) (D.past disk.old) (D.past disk.new) (λ fs. Recovers fs row) }
    ensures recovered { (row : Row) (gate : GateSlot) → IsTrue (D.tells disk.old) → IsReady (D.past disk.old (D.clock disk.old)) gate row
        → OnOk result (IsRecovered (D.past disk.new (D.clock disk.new)) gate row) }
    ensures told { IsTrue (D.tells disk.old) → IsTrue (D.tells disk.new) }
    ensures counted { CountsFault (is_err result) (D.fault_count disk.old) (D.fault_count disk.new) }
{
    clear_file(disk, 1)?;
    clear_file(disk, 2)?;
    clear_file(disk, 3)?;
    clear_file(disk, 4)?;
    Ok(())
}
