//! Limit of descriptors that the system sets a service, and the settings that fit it.

ghost use Rattle.std.specs.Prelude.{IfErr};
ghost use Rattle.lra_opening.specs.Ends.{IsOfAddress};

use lra_logs::{Event, EventSink};
use lra_opening::{Notifier, ServeFault};
use lra_settings::{Settings, descriptors_needed, share_descriptors};
use std::alloc::Global;
use std::fs::File;
use std::os::unix::fs::FileExt;
use std::rt::Files;

/// Number of bytes that are read of the system's file of limits.
const PIECE: usize = 4_096;

/// Returns the number after the name of the limit of open files in the system's table of limits.
fn limit_in(table: &str) -> Option<u64> {
    let (_, rest) = table.split_once("Max open files")?;
    rest.trim_ascii_start()
        .split(' ')
        .next()?
        .parse::<u64>()
        .ok()
}

/// Returns the number of descriptors that this process may have, or `None` if the system reports no limit.
fn descriptor_limit<R: Files<File = File>>(rt: &R) -> Option<u64> {
    let file = File::open(rt, "/proc/self/limits").ok()?;
    let mut piece = [0u8; PIECE];
    let count = file.read_at(&mut piece, 0).ok()?;
    limit_in(str::from_utf8(piece.as_slice().get(..count)?).ok()?)
}

/// Reports that connections and callbacks are fewer than asked for.
fn report_lowered<H: Notifier + EventSink>(
    alloc: Global,
    notifier: &H,
    limit: u64,
    asked: &Settings,
    had: &Settings,
) {
    let (connections, callbacks) = (had.connections, had.callbacks);
    let line = format!(in alloc;
        "lra: at most {connections} connections and {callbacks} callbacks at once: the limit of open files is {limit}\n"
    );
    if let Ok(line) = line {
        notifier.notify(line.as_str());
    }
    notifier.note(&Event::DescriptorsLowered {
        asked: asked.connections.saturating_add(asked.callbacks),
        had: connections.saturating_add(callbacks),
    });
}

/// Reports that there are too few descriptors to serve.
fn report_too_few<H: Notifier>(alloc: Global, notifier: &H, limit: u64, taken: u64) {
    let least = descriptors_needed(taken);
    let line = format!(in alloc;
        "lra: the limit of open files is {limit}, and at least {least} are needed\n"
    );
    if let Ok(line) = line {
        notifier.notify(line.as_str());
    }
}

/// Returns the settings with no more connections and callbacks than there are descriptors for, beside the `taken` ones.
/// If these are fewer than asked for, or too few to serve, reports that.
pub fn fit_descriptors<R: Files<File = File>, H: Notifier + EventSink>(
    rt: &R,
    alloc: Global,
    notifier: &H,
    taken: u64,
    settings: Settings,
) -> Result<Settings, ServeFault>
    ensures { IfErr result IsOfAddress }
{
    let Some(limit) = descriptor_limit(rt) else {
        return Ok(settings);
    };
    let Some(fitting) = share_descriptors(limit, taken, &settings) else {
        report_too_few(alloc, notifier, limit, taken);
        return Err(ServeFault::Address);
    };
    if fitting != settings {
        report_lowered(alloc, notifier, limit, &settings, &fitting);
    }
    Ok(fitting)
}
