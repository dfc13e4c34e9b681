//! Runs the commands of standard input, which build tries from pairs and look keys up in them.
#![tactic(auto)]

use std::process::ExitCode;
pub use zerotrie_session::{Noted, RunError, run};

fn main(rt: HostRuntime) -> ExitCode {
    let mut reader = Noted::new(rt.stdin());
    let mut writer = Noted::new(rt.stdout());
    match run(rt.alloc(), &mut reader, &mut writer) {
        Ok(status) => ExitCode::from(status),
        Err(error) => {
            let message = error.message();
            let _ = eprintln!(rt; "{message}");
            ExitCode::from(3)
        }
    }
}
