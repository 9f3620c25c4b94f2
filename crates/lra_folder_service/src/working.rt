//! The threads of a service over a folder.

ghost use Rattle.std.specs.Prelude.{◌≡◌, ◌⊎◌, IfErr, OnOk};
ghost use Rattle.std.specs.Io.KnownBytes.{Appends};
ghost use Rattle.std.specs.Thread.{IsSend, IsSync};
ghost use Rattle.lra_opening.specs.Ends.{serving_line};
ghost use Rattle.lra_journal_folder.specs.declared.fault.RollingFault.TheVariants.{Here};
ghost use Rattle.lra_folder_service.specs.Outcomes.{IsSaid};

use crate::folder_state::{FolderRole, FolderState};
use crate::rotation_manager::RotationManager;
use lra_admission::KeyFiles;
use lra_audits::RunFault;
use lra_journal_factory::Opener;
use lra_logs::{Event, EventSink};
use lra_opening::{Notifier, ServeFault};
use lra_server::say;
use lra_sessions::JournalSession;
use std::alloc::Global;
use std::fs::File;
use std::io::Write;
use std::marker::{Send, Sync};
use std::net::{Net, TcpListener, TcpStream};
use std::rt::Files;
use std::sync::Wait;
use std::thread;
use std::thread::{Builder, Threads};
use std::time::Clock;

/// Writes that an address is served.
fn announce<W: Write>(alloc: Global, address: &str, writer: &mut W) -> Result<(), ServeFault>
    ensures said { OnOk result (Appends (W.contents writer.old) (W.contents writer.new) (serving_line address.now)) }
    ensures fault { IfErr result (λ fault. IsSaid address.now (W.contents writer.old) (W.contents writer.new)
        (Here fault)) }
{
    say(alloc, address, writer)
}

/// Starts a thread for each role, and a callback worker for each journal. Then it says that the service serves, and
/// maintains the journals, with a callback worker for each new one, until the service is to end or no connection worker
/// is left. If a thread can't be started before that is said, nothing is said, and the started threads end at once. If
/// one can't be started later, the prepared journal that it was wanted for isn't used until one is.
pub(crate) fn work<
    'a,
    R: Files<File = File>
        + KeyFiles
        + AllocGlobal
        + Clone
        + Drop
        + Threads
        + Wait
        + Clock
        + Net<Stream = TcpStream, Listener = TcpListener>
        + Sync,
    H: Notifier + EventSink + Sync,
    O: Opener<OwnedSession = B> + Drop,
    B: JournalSession + Send + Drop,
    W: Write,
>(
    folder_state: &FolderState<'_, 'a, R, H, B>,
    rotation_manager: &mut RotationManager<'_, 'a, R, H, O, B>,
    roles: &[FolderRole],
    address: &str,
    writer: &mut W,
) -> Result<(), ServeFault>
    ensures said { OnOk result (Appends (W.contents writer.old) (W.contents writer.new) (serving_line address.now)) }
    ensures fault { IfErr result (λ fault. IsSaid address.now (W.contents writer.old) (W.contents writer.new)
        (Here fault)) }
{
    let Ok((_version, journals)) = folder_state.journal_registry.all(folder_state.rt) else {
        return Err(ServeFault::Run(RunFault::Memory));
    };
    rotation_manager.start_all(journals);
    let (worked, back, managed) = thread::scope(
        thread::scope_env(),
        folder_state.rt,
        move |scope|
            requires { IsSync R.row × IsSync H.row × IsSend B.row }
            ensures said { OnOk result.0 (Appends (W.contents writer.entry.now) (W.contents result.1.now)
                (serving_line address.entry.now)) }
            ensures fault { IfErr result.0 (λ fault. IsSaid address.entry.now (W.contents writer.entry.now)
                (W.contents result.1.now) (Here fault)) }
            ensures back { result.1.ghost_name ≡ writer.entry.ghost_name }
        {
            for role in roles {
                let role = *role;
                let started = Builder::new().spawn_scoped(
                    scope,
                    move || folder_state.run_role(role),
                );
                if started.is_err() {
                    return (Err(folder_state.give_up()), writer, rotation_manager);
                }
            }
            for _journal in 0..rotation_manager.count_idle() {
                let Some(journal) = rotation_manager.pop_idle() else {
                    break;
                };
                let started = Builder::new().spawn_scoped(scope, move || {
                    folder_state.start_callbacks(&journal);
                    drop(journal);
                });
                if started.is_err() {
                    return (Err(folder_state.give_up()), writer, rotation_manager);
                }
            }
            if let Err(fault) = announce(folder_state.alloc, address, writer) {
                let _ = folder_state.give_up();
                return (Err(fault), writer, rotation_manager);
            }
            folder_state.notifier.note(&Event::Serving {
                journals: rotation_manager.count_journals(),
                workers: folder_state.workers(),
            });
            rotation_manager.begin();
            folder_state.begin();
            for _ in folder_state.rt.forever() {
                let Some(journal) = rotation_manager.next(&*folder_state) else {
                    break;
                };
                let started = Builder::new().spawn_scoped(scope, move || {
                    folder_state.run_callbacks(&journal);
                    drop(journal);
                });
                rotation_manager.note_thread(&*folder_state, started.is_ok());
            }
            (Ok(()), writer, rotation_manager)
        },
    );
    let _writer = back;
    // No thread writes any more: what callbacks recorded after the end was asked for is logged too.
    managed.driver.report();
    worked
}
