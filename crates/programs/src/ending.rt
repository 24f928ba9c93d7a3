// How a program ends: with the status of its run, or with status 1 where it failed.
ghost use Rattle.std.specs.Prelude.{◌≡◌, MatchResult};
ghost use Rattle.std.specs.Process.{exit_status};

use std::process::ExitCode;

// The status; a failure is told on standard error.
pub fn end(rt: &HostRuntime, name: &str, done: anyhow::Result<ExitCode>) -> ExitCode
    ensures { MatchResult done (λ status. result ≡ status) (λ _. exit_status result ≡ 1) }
{
    match done {
        Ok(status) => status,
        Err(error) => {
            let _ = eprintln!(rt; "{name}: {error}");
            ExitCode::FAILURE
        }
    }
}
