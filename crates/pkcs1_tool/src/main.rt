//! Without arguments the program reads lines and writes one for each: `pub HEX` asks for the RSA public key with this
//! encoding, `priv HEX` for the private key, `pss HEX` and `oaep HEX` for parameters of RSASSA-PSS and RSAES-OAEP;
//! `pkcs1_program` has the other words. `copy pub IN OUT` and `copy priv IN OUT` copy a key from file to file.
#![tactic(auto)]

ghost use Rattle.std.specs.Prelude.{◌≡◌, ℕ, List, Bool, is_ok};
ghost use Rattle.der_core.specs.Words.{GivesAll};
ghost use Rattle.standard.specs.Statement.{PrivateKeyEncoding, PublicKeyEncoding};
ghost use Rattle.pkcs1_program.specs.Words.{CopiesFile, FillsFile, IsDone, MakesCalls, WritesOutput, exit_status_of, lines_of, private_key_mode, public_key_mode, public_key_umask, umask_always};

#[cfg(test)]
mod tests;

use der_core::{FromRead, Sink, Source, ToWrite};
use pkcs1_program::{
    Fault, Plan, ReplaceFiles, behind_name, copy_priv, copy_pub, plan_of, run, status,
};
use std::alloc::Global;
use std::fmt::Display;
use std::path::Path;
use std::process::ExitCode;
use std::{env, io};

const USAGE: &str = "usage: pkcs1_tool [copy pub|priv IN OUT]";

/// The arguments, the program's name first.
fn arguments(rt: &HostRuntime) -> io::Result<Vec<String>> {
    let mut arguments = Vec::new(rt.alloc());
    for argument in env::args(rt)? {
        arguments.push(argument)?;
    }
    Ok(arguments)
}

/// Whether it succeeded. Prints an error to standard error.
fn reported<T: Drop, E: Display + Drop>(rt: &impl Eprint, outcome: Result<T, E>) -> bool
    ensures { result ≡ is_ok outcome }
{
    match outcome {
        Ok(_) => true,
        Err(error) => {
            let _ = eprintln!(rt; "{error}");
            false
        }
    }
}

/// Carries out the plan. Lines are read from the source and answered to the sink. Returns the exit status, which is
/// that of the plan, after success or not. It is 0 only if the lines were answered, or the key was copied.
fn carry_out<P: Eprint, F: ReplaceFiles, R: Source, W: Sink>(
    rt: &P,
    alloc: Global,
    plan: &Plan<'_>,
    files: &mut F,
    source: &mut R,
    sink: &mut W,
) -> u8
    ensures status { (ok : Bool) × (result ≡ exit_status_of plan.now ok) }
    ensures done { let answered = (input : List ℕ) × GivesAll (R.remaining source.old) (R.remaining source.new) input
        × WritesOutput (W.contents sink.old) (W.contents sink.new) (lines_of input) × W.is_flushed sink.new in
        let old = FillsFile F.opens_in_place F.Created.is_closed F.Created.contents F.Created.is_flushed
        F.Created.failures in
        let new = FillsFile F.creates_new F.New.is_closed F.New.contents F.New.is_flushed F.New.failures in
        let Made = MakesCalls (F.calls files.old) (F.calls files.new) in
        result ≡ 0 → IsDone plan.now answered
        (λ input output. CopiesFile PublicKeyEncoding public_key_mode public_key_umask (F.opens input) F.has_mode
        F.Opened.remaining F.aims old new Made input output)
        (λ input output. CopiesFile PrivateKeyEncoding private_key_mode umask_always (F.opens input) F.has_mode
        F.Opened.remaining F.aims old new Made input output) }
{
    let ok = match plan {
        Plan::Usage => reported::<(), _>(rt, Err(USAGE)),
        Plan::Lines => reported(rt, run(alloc, source, sink)),
        Plan::CopyPub { input, output } => {
            let (input, output) = (Path::new(input), Path::new(output));
            reported(rt, copy_pub(files, alloc, input, output))
        }
        Plan::CopyPriv { input, output } => {
            let (input, output) = (Path::new(input), Path::new(output));
            reported(rt, copy_priv(files, alloc, input, output))
        }
    };
    status(plan, ok)
}

fn main(rt: HostRuntime) -> ExitCode {
    let status = match arguments(&rt) {
        Ok(arguments) => {
            let plan = plan_of(behind_name(arguments.as_slice()));
            let (mut source, mut sink) = (FromRead::new(rt.stdin()), ToWrite::new(rt.stdout()));
            carry_out(&rt, rt.alloc(), &plan, &mut &rt, &mut source, &mut sink)
        }
        Err(error) if error.kind() == io::ErrorKind::OutOfMemory => {
            status(&Plan::Lines, reported::<(), _>(&rt, Err(Fault::Memory)))
        }
        Err(_) => status(&Plan::Usage, reported::<(), _>(&rt, Err(USAGE))),
    };
    ExitCode::from(status)
}
