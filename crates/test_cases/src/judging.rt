//! Files of cases, beside what is found.

use crate::{Case, Part, read_cases};
use std::alloc::AllocError;
use std::rt::Files;
use std::{fs, io};

/// Has the cases of a file answered, each by its kind and the parts that ask, prints those whose answer is another than
/// the one that the file has, with both, and how many cases there are, or why there are none. Says how many answers
/// differ.
pub fn judge_file<R, F>(rt: &R, path: &str, answer: F) -> io::Result<u64>
where
    R: Files + Print + AllocGlobal,
    F: Fn(&str, &[Part]) -> Result<String, AllocError>,
    requires { F.IsAlwaysCallable answer }
{
    let text = fs::read_to_string(rt, path)?;
    match read_cases(rt.alloc(), text.as_str()) {
        Ok(cases) => {
            let differ = judge_cases(rt, path, &cases, &answer)?;
            let count = cases.len();
            println!(rt; "file {path}: {count} cases")?;
            Ok(differ)
        }
        Err(fault) => {
            println!(rt; "file {path}: {fault}")?;
            Ok(0)
        }
    }
}

/// Prints the cases whose answers differ, and says how many these are.
fn judge_cases<R, F>(rt: &R, path: &str, cases: &[Case], answer: &F) -> io::Result<u64>
where
    R: Print,
    F: Fn(&str, &[Part]) -> Result<String, AllocError>,
    requires { F.IsAlwaysCallable answer.now }
{
    let mut differ: u64 = 0;
    for case in cases {
        if !is_answered(rt, path, case, answer)? {
            differ = differ.saturating_add(1);
        }
    }
    Ok(differ)
}

/// Whether a case is answered as it says. Where it isn't, it is printed.
fn is_answered<R, F>(rt: &R, path: &str, case: &Case, answer: &F) -> io::Result<bool>
where
    R: Print,
    F: Fn(&str, &[Part]) -> Result<String, AllocError>,
    requires { F.IsAlwaysCallable answer.now }
{
    let Case { kind, name, .. } = case;
    match case.asked() {
        Ok((parts, wanted)) => {
            let found = answer(kind.as_str(), parts)?;
            if found.as_str() == wanted {
                return Ok(true);
            }
            print!(rt; "== {path}: {kind} {name}\n-- expected\n{wanted}-- found\n{found}")?;
        }
        Err(fault) => println!(rt; "== {path}: {kind} {name}\n{fault}")?,
    }
    Ok(false)
}
