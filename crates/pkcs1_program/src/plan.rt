//! What the program is to do.
ghost use Rattle.std.specs.Prelude.{◌≡◌, drop, map, string_bytes};
ghost use Rattle.pkcs1_program.specs.Words.{exit_status_of, planned_by, task_of};

/// What the program is to do.
#[derive(Clone, Copy, Debug, PartialEq, Eq)]
pub enum Plan<'a> {
    /// Read lines from standard input, and write the output for each.
    Lines,
    /// Print the usage.
    Usage,
    /// Read a public key from the file `input` and write it to the file `output`.
    CopyPub { input: &'a str, output: &'a str },
    /// Read a private key from the file `input` and write it to the file `output`.
    CopyPriv { input: &'a str, output: &'a str },
}

/// The words behind the program's name.
pub fn behind_name(arguments: &[String]) -> &[String]
    ensures { result.now ≡ drop 1 arguments.now }
{
    match arguments {
        [] => &[],
        [_, words @ ..] => words,
    }
}

/// The plan for these arguments (without the program's name): `Lines` for none, a copy for exactly `copy pub IN OUT` or
/// `copy priv IN OUT`, else `Usage`.
pub fn plan_of(words: &[String]) -> Plan<'_>
    ensures { task_of result ≡ planned_by (map string_bytes words.now) }
{
    match words {
        [] => Plan::Lines,
        [copy, kind, input, output] if copy.as_str() == "copy" => {
            let (input, output) = (input.as_str(), output.as_str());
            if kind.as_str() == "pub" {
                Plan::CopyPub { input, output }
            } else if kind.as_str() == "priv" {
                Plan::CopyPriv { input, output }
            } else {
                Plan::Usage
            }
        }
        _ => Plan::Usage,
    }
}

/// The exit status: 2 for `Usage`, else 0 on success and 1 after an error.
pub fn status(plan: &Plan<'_>, ok: bool) -> u8
    ensures { result ≡ exit_status_of plan.now ok }
{
    match (plan, ok) {
        (Plan::Usage, _) => 2,
        (Plan::Lines, true) => 0,
        (Plan::Lines, false) => 1,
        (Plan::CopyPub { .. } | Plan::CopyPriv { .. }, true) => 0,
        (Plan::CopyPub { .. } | Plan::CopyPriv { .. }, false) => 1,
    }
}
