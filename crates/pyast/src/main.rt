//! Lists, dumps, unparses and checks Python source.
#![tactic(auto)]

use pyast_command::{
    Check, Command, Fault, FaultCode, RunFaultCode, UsageFault, check_one, open_source, run, tell,
    tell_bad_word, tell_file,
};
use pysource::{Counted, write_all};
use std::io::ErrorKind;
use std::process::ExitCode;

/// The words after the program's name. They come as one list or not at all: where one is no text,
/// they give no command.
fn words(rt: &HostRuntime) -> Result<Vec<String>, UsageFault> {
    match std::env::args(rt) {
        Ok(all) => Ok(all.skip(1).collect(rt.alloc())?),
        Err(error) if error.kind() == ErrorKind::OutOfMemory => Err(UsageFault::Memory),
        Err(_) => Err(UsageFault::BadArguments),
    }
}

/// Runs a command over the standard streams, or over the file that it names.
fn perform(rt: &HostRuntime, command: &Command) -> u8 {
    let mut writer = Counted::new(rt.stdout());
    let mut faults = Counted::new(rt.stderr());
    let file = match command.file() {
        None => {
            let mut reader = Counted::new(rt.stdin());
            return run(rt.alloc(), command, &mut reader, &mut writer, &mut faults);
        }
        Some(name) => open_source(rt, name),
    };
    match file {
        Ok(file) => {
            let mut reader = Counted::new(file);
            run(rt.alloc(), command, &mut reader, &mut writer, &mut faults)
        }
        Err(fault) => tell(rt.alloc(), command.name(), fault, &mut faults).status(),
    }
}

/// Checks the standard input, or a file of another name than `-`.
fn check_file(rt: &HostRuntime, asked: &Check, name: &str) -> u8 {
    let mut faults = Counted::new(rt.stderr());
    if name == "-" {
        let name = asked.stdin_name.as_deref().unwrap_or("<stdin>");
        let mut reader = Counted::new(rt.stdin());
        return check_one(rt.alloc(), asked, name, &mut reader, &mut faults);
    }
    match open_source(rt, name) {
        Ok(file) => {
            let mut reader = Counted::new(file);
            check_one(rt.alloc(), asked, name, &mut reader, &mut faults)
        }
        Err(fault) => tell_file(rt.alloc(), name, fault, None, &mut faults).status(),
    }
}

/// Checks each file, up to one for which there is no memory. The answer is the greatest status.
fn check_files(rt: &HostRuntime, asked: &Check) -> u8 {
    let no_memory = FaultCode::Run(RunFaultCode::Memory).status();
    let mut greatest = 0;
    for name in asked.files.as_slice() {
        greatest = greatest.max(check_file(rt, asked, name.as_str()));
        if greatest == no_memory {
            break;
        }
    }
    greatest
}

/// Tells bad words by one of them, or by what they lack.
fn refuse_by(rt: &HostRuntime, word: &str) -> u8 {
    let mut faults = Counted::new(rt.stderr());
    tell_bad_word(word, &mut faults);
    FaultCode::Run(RunFaultCode::BadArguments).status()
}

/// Tells why the words gave no command. Help or the version, where it was asked for, goes to the
/// standard output.
fn refuse(rt: &HostRuntime, fault: UsageFault) -> u8 {
    let code = match fault {
        UsageFault::HelpAsked(text) | UsageFault::VersionAsked(text) => {
            let mut writer = Counted::new(rt.stdout());
            match write_all(&mut writer, text.as_bytes()) {
                Ok(()) => return 0,
                Err(_) => RunFaultCode::Write,
            }
        }
        UsageFault::BadWord(word) => return refuse_by(rt, word.as_str()),
        UsageFault::WordMissing => return refuse_by(rt, "a word is missing"),
        UsageFault::BadArguments => RunFaultCode::BadArguments,
        UsageFault::MalformedCursor => RunFaultCode::CursorText,
        UsageFault::Memory => RunFaultCode::Memory,
    };
    let mut faults = Counted::new(rt.stderr());
    tell(rt.alloc(), "", Fault::Plain(code), &mut faults).status()
}

/// Reads the command and runs it.
fn start(rt: &HostRuntime) -> Result<u8, UsageFault> {
    let words = words(rt)?;
    let command = Command::read(rt.alloc(), words.as_slice())?;
    Ok(match &command {
        Command::Check(asked) => check_files(rt, asked),
        _ => perform(rt, &command),
    })
}

fn main(rt: HostRuntime) -> ExitCode {
    ExitCode::from(match start(&rt) {
        Ok(status) => status,
        Err(fault) => refuse(&rt, fault),
    })
}
