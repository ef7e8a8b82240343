//! What main takes from outside but files, the words, and what it tells on standard error. A line that can't be written
//! changes nothing.

use std::io::ErrorKind;
use std::{env, io};
use xfs_cli::status::NO_MEMORY;
use xfs_envelope::{Answer, Code, read_answer};
use xfs_json::words;
use xfs_simulated::OWN;
use xfs_sockets::Ports;
use xfs_start::{Folder, JOURNAL_FILE, KEY_FILE, SEED_FILE, StartFault};

// The version of the program, as CHANGES.md has it.
const VERSION: &str = "December 2026";

// The status of main where a port or a file can't be opened.
const CANNOT_OPEN: u8 = 1;

// The status of main where the file of the key, of the seed or of the bench can't be used.
const BAD_FILE: u8 = 2;

/// The words of the command line behind the program's name. A word that is no text is of no table: no words have the
/// same status.
pub fn read_words(rt: &HostRuntime) -> Result<Vec<String>, StartFault> {
    match list_words(rt) {
        Ok(words) => Ok(words),
        Err(error) if error.kind() == ErrorKind::OutOfMemory => Err(StartFault::Memory),
        Err(_) => Ok(Vec::new(rt.alloc())),
    }
}

fn list_words(rt: &HostRuntime) -> io::Result<Vec<String>> {
    let mut words = Vec::new(rt.alloc());
    for word in env::args(rt)?.skip(1) {
        words.push(word)?;
    }
    Ok(words)
}

/// Tells why no command was run; the status.
pub fn tell_fault(rt: &HostRuntime, fault: StartFault) -> u8 {
    match fault {
        StartFault::BadSecret { file } => {
            let _written = eprintln!(rt; "xfs: bad key file {file}: not 64 hexadecimal digits");
            BAD_FILE
        }
        StartFault::UnreadSecret { file, why } => {
            let _written = eprintln!(rt; "xfs: bad key file {file}: {why}");
            BAD_FILE
        }
        StartFault::BadBench => {
            let _written = eprintln!(rt; "xfs: bad bench file");
            BAD_FILE
        }
        StartFault::UnreadBench { why } => {
            let _written = eprintln!(rt; "xfs: bad bench file: {why}");
            BAD_FILE
        }
        StartFault::CannotOpen { file, why } => {
            let _written = eprintln!(rt; "xfs: cannot open {file}: {why}");
            CANNOT_OPEN
        }
        StartFault::CannotListen { port, why } => {
            let _written = eprintln!(rt; "xfs: cannot open port {port}: {why}");
            CANNOT_OPEN
        }
        StartFault::Memory => NO_MEMORY,
    }
}

/// Tells that `serve` listens: at which addresses, with which journal, and under whose key.
pub fn tell_listening(rt: &HostRuntime, ports: &Ports, key: &[u8; 32]) {
    let Ports {
        publisher,
        card,
        keys,
        cash,
    } = ports;
    let whose = if *key == OWN.key {
        "the public key of the examples"
    } else {
        KEY_FILE
    };
    let _written = eprintln!(rt;
        "xfs: listening on 127.0.0.1:{publisher} (publisher), 127.0.0.1:{card} (card reader), 127.0.0.1:{keys} (keyboard) and 127.0.0.1:{cash} (cash dispenser); journal {JOURNAL_FILE}; key {whose}"
    );
}

/// Tells which of the key, the seed and the journal others than their owner may read or write.
pub fn tell_open_files(
    rt: &HostRuntime,
    folder: &Folder<'_, HostRuntime>,
) -> Result<(), StartFault> {
    for file in [KEY_FILE, SEED_FILE, JOURNAL_FILE] {
        if folder.is_open_to_others(file)? {
            let _written = eprintln!(rt; "xfs: others may read or write {file}: chmod 600 {file}");
        }
    }
    Ok(())
}

/// Tells that nobody was reached.
pub fn tell_unreached(rt: &HostRuntime, port: u16, why: ErrorKind) {
    let _written = eprintln!(rt; "xfs: nobody listens on 127.0.0.1:{port}: {why}");
}

/// Tells which version of the program was asked what it doesn't do.
pub fn tell_version(rt: &HostRuntime) {
    let _written = eprintln!(rt; "xfs: version of {VERSION}");
}

/// Tells the error of a command that ended by one, where this text completes it.
pub fn tell_error(rt: &HostRuntime, text: &[u8]) {
    let Ok(answer) = read_answer(rt.alloc(), text) else {
        return;
    };
    if let Answer::Completion {
        code: Code::CommandErrorCode,
        payload,
        ..
    } = &answer
    {
        if let Ok(Some(error)) = words(payload, "errorCode") {
            if error.bytes().all(|byte| byte.is_ascii_alphanumeric()) {
                let _written = eprintln!(rt; "xfs: commandErrorCode: {error}");
            }
        }
    }
}
