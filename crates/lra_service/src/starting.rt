//! Start of a service's threads: all of them have started before the service reports that it serves.

ghost use Rattle.std.specs.Prelude.{◌≡◌, All, IfErr, OnOk};
ghost use Rattle.std.specs.Io.KnownBytes.{Appends};
ghost use Rattle.std.specs.Thread.{IsSend, IsSync};
ghost use Rattle.lra_opening.specs.Ends.{serving_line, IsSaid};
ghost use Rattle.lra_service.specs.inner.Opened.{IsAt};

use crate::roles::Role;
use crate::service_state::ServiceState;
use lra_admission::KeyFiles;
use lra_logs::EventSink;
use lra_office::{Clerk, LockedService, OfficeOf};
use lra_opening::{Notifier, ServeFault};
use lra_server::say;
use std::io::Write;
use std::marker::{Send, Sync};
use std::net::{Net, TcpListener, TcpStream};
use std::sync::Wait;
use std::thread;
use std::thread::{Builder, Threads};
use std::time::Clock;

/// Starts a thread for each clerk, two resolvers, and a thread that reports what is added to the journal's file. Then
/// writes that the service serves, and accepts connections until no connection worker answers any more. If a thread
/// can't be started, writes nothing, and ends the started threads at once.
pub(crate) fn work<
    V: LockedService + Send,
    R: KeyFiles + Threads + Wait + Clock + Net<Stream = TcpStream, Listener = TcpListener> + Sync,
    H: Notifier + EventSink + Sync,
    W: Write,
>(
    service_state: &ServiceState<'_, R, H>,
    office: &OfficeOf<V>,
    jobs: Vec<(Role, Clerk<V>)>,
    address: &str,
    writer: &mut W,
) -> Result<(), ServeFault>
    requires { All (λ job. IsAt V.setting V.covers office.now job.1) jobs.items }
    ensures said { OnOk result (Appends (W.contents writer.old) (W.contents writer.new) (serving_line address.now)) }
    ensures fault { IfErr result (IsSaid address.now (W.contents writer.old) (W.contents writer.new)) }
{
    service_state.expect(jobs.len());
    let (worked, back) = thread::scope(
        thread::scope_env(),
        service_state.rt,
        move |scope|
            requires { IsSync R.row × IsSync H.row × IsSend V.row × All
                (λ job. IsAt V.setting V.covers office.now job.1) jobs.items }
            ensures said { OnOk result.0 (Appends (W.contents writer.entry.now) (W.contents result.1.now)
                (serving_line address.entry.now)) }
            ensures fault { IfErr result.0 (IsSaid address.entry.now (W.contents writer.entry.now)
                (W.contents result.1.now)) }
            ensures back { result.1.ghost_name ≡ writer.entry.ghost_name }
        {
            for job in jobs {
                let started = Builder::new().spawn_scoped(
                    scope,
                    move ||
                        requires { IsAt V.setting V.covers office.now job.1 }
                    { service_state.run_role(office, job.0, job.1) },
                );
                if started.is_err() {
                    return (Err(service_state.give_up()), writer);
                }
            }
            let reports = Builder::new().spawn_scoped(scope, move || service_state.start_reports());
            let first = Builder::new().spawn_scoped(scope, move || service_state.start_resolver());
            let second = Builder::new().spawn_scoped(scope, move || service_state.start_resolver());
            if reports.is_err() || first.is_err() || second.is_err() {
                return (Err(service_state.give_up()), writer);
            }
            let said = say(service_state.alloc, address, writer);
            if said.is_ok() {
                service_state.begin(office.instance());
                service_state.admit();
            } else {
                let _ = service_state.give_up();
            }
            (said, writer)
        },
    );
    let _writer = back;
    service_state.report_rest();
    worked
}
