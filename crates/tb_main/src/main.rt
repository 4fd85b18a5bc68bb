//! The program `tsb`: build mode of the TypeScript compiler, in the folder where it starts.
#![tactic(auto)]

ghost use Rattle.std.specs.Prelude.{◌≡◌, Some, None, IfSome, IsNone};
ghost use Rattle.std.specs.IoError.{error_kind};
ghost use Rattle.std.specs.Process.{exit_status};
ghost use Rattle.tb_text.specs.Statuses.{code_of};
ghost use Rattle.tb_main.specs.Complaints.{complaint_of, unread_of};

mod changes;
mod disks;
mod faults;
mod feeds;
mod files;
mod gates;
mod listings;
mod places;
mod sinks;
mod trees;

use changes::Changes;
use disks::RealDisk;
use feeds::EndFeed;
use gates::OpenGate;
use sinks::RealSink;
use std::process::ExitCode;
use std::rt::Env;
use std::{env, io};
use tb_session::run;
use tb_text::{Status, UsageFault};
use trees::RealTree;

fn main(rt: HostRuntime) -> ExitCode {
    let settle = Box::new(rt.alloc(), move |changes: &mut Changes| changes.settle(&rt));
    let status = match (words(&rt), settle) {
        (Ok(words), Ok(settle)) => {
            let mut tree = RealTree::new(&rt);
            let disk = RealDisk::new(&rt, rt.alloc(), settle);
            let out = RealSink::new(&rt);
            let words = words.as_slice();
            run(
                &rt,
                rt.alloc(),
                words,
                &mut tree,
                disk,
                EndFeed,
                out,
                &OpenGate,
            )
            .status
        }
        (Err(error), _) => unread(&error),
        (Ok(_), Err(_)) => Status::NoMemory,
    };
    finish(&rt, &status)
}

// Says what is to be said of a run that ended so, and gives its exit status.
fn finish<R: Eprint>(rt: &R, status: &Status) -> ExitCode
    ensures { exit_status result ≡ code_of status.now }
{
    if let Some(line) = complaint(status) {
        // The exit status tells the same where nobody takes the line.
        let _ = rt.eprintln(line);
    }
    ExitCode::from(status.code())
}

// The words after the program's name.
fn words<R: Env + AllocGlobal>(rt: &R) -> io::Result<Vec<String>> {
    let mut words = Vec::new(rt.alloc());
    for word in env::args(rt)?.skip(1) {
        words.push(word)?;
    }
    Ok(words)
}

// How a run ends whose words cannot be had. A word that is no text makes a faulty command line.
fn unread(error: &io::Error) -> Status
    ensures { result ≡ unread_of (error_kind error.now) }
{
    match error.kind() {
        io::ErrorKind::OutOfMemory => Status::NoMemory,
        _ => Status::Usage(UsageFault::Unread),
    }
}

fn complaint(status: &Status) -> Option<&'static str>
    ensures said { IfSome result (λ line. complaint_of status.now ≡ Some line.now) }
    ensures silent { IsNone result → complaint_of status.now ≡ None }
{
    match status {
        Status::Clean
        | Status::Skipped
        | Status::Generated
        | Status::InvalidProject
        | Status::Cycle => None,
        Status::Usage(_) => Some("tsb: usage"),
        Status::NoMemory => Some("tsb: out of memory"),
        Status::Outside { .. } => Some("tsb: outside fault"),
        Status::NotBuilt => Some("tsb: not built yet"),
    }
}
