//! `scenes`: plays the scenes of its standard input, each with a server or a world of its own, and tells which line was
//! answered otherwise than it must be. It is a test: its contracts are its safety alone.
//!
//! The head of the file `stdin` says what the lines are.
#![tactic(auto)]

mod fault;
mod groups;
mod handles;
mod messages;
mod numbers;
mod play;
mod playing;
mod posts;
mod refusal;
mod scene;
mod server;
mod spelling;
mod steps;
mod stream;
mod world;

use fault::Fault;
use play::Play;
use server::MOST_AGAIN;
use std::io;
use std::process::ExitCode;

fn main(rt: HostRuntime) -> ExitCode {
    match run(&rt) {
        Ok(true) => ExitCode::SUCCESS,
        Ok(false) | Err(_) => ExitCode::FAILURE,
    }
}

/// Whether all scenes are as they must be. Where memory was refused they are played again, from the first on.
fn run<R: AllocGlobal + Input + Print>(rt: &R) -> Result<bool, Fault> {
    let text = io::read_to_string(rt.alloc(), rt.reader())?;
    let mut played = play_once(rt, text.as_str());
    for _again in 0..MOST_AGAIN {
        if !matches!(played, Err(Fault::Memory)) {
            break;
        }
        played = play_once(rt, text.as_str());
    }
    drop(text);
    played
}

fn play_once<R: AllocGlobal + Print>(rt: &R, text: &str) -> Result<bool, Fault> {
    let mut play = Play::new(rt.alloc());
    let played = play_all(rt, &mut play, text);
    drop(play);
    played
}

fn play_all<'a, R: Print>(rt: &R, play: &mut Play<'a>, text: &'a str) -> Result<bool, Fault> {
    let mut line = 0u64;
    for text in text.lines() {
        line = line.wrapping_add(1);
        if let Err(fault) = play.take(rt, line, text) {
            return told(rt, line, fault);
        }
    }
    play.end(rt)?;
    let (kept, broken, refused) = (play.kept, play.broken, play.refused);
    println!(rt; "{kept} scenes are as they must be, {broken} are not")?;
    if refused > 0 {
        println!(rt; "{refused} records were refused, and sent again")?;
    }
    Ok(broken == 0)
}

/// Tells which line is at fault.
fn told<R: Print>(rt: &R, line: u64, fault: Fault) -> Result<bool, Fault> {
    if let Fault::Line(why) = fault {
        println!(rt; "line {line}: {why}")?;
    }
    Err(fault)
}
