//! The text on how the program is called.

use clap::{Arg, ArgAction, Command};
use std::alloc::{AllocError, Global};
use std::io;

// The lists of words that are taken.
const USAGE: &str =
    "jackd play SCRIPT CAPTURE PLAYBACK [--record PATH].. [--disk PATH].. [--strict] [--no-sync]
       jackd rehearse NUMBER
       jackd graph SCRIPT REPORT CYCLE [--dot]
       jackd check SCRIPT CAPTURE REPORT PLAYBACK [--record PATH]..
       jackd --help
       jackd --version";

// What the words of a command are, and the exit codes.
const NAMES: &str =
    "SCRIPT is a session's script, CAPTURE the WAVE file that stands for the sound card's input, and
PLAYBACK the WAVE file that is made, which stands for its output. Each recorder of the script
makes the PATH of one --record, and each of its disks plays the WAVE file at the PATH of one --disk,
in their order. The report goes to standard output. What is wrong, which calls of the script were
refused, which recorders lost blocks, and which disks had underruns, goes to standard error. With
--strict the exit code is 9 where a call was refused, a block was lost, or there was an underrun.
Files are synced before the play ends, so that a disk that fails late is told; with --no-sync they
are not.

NUMBER, from 0 to 4294967295, makes a session of 10,000 cycles, which is played in memory. Six lines
on it go to standard output.

REPORT is what a play of SCRIPT printed, and CYCLE the number of one of its cycles. The graph that
the cycle used goes to standard output: as lines, or with --dot as a digraph for graphviz.

A check decides whether REPORT explains PLAYBACK and each PATH. What goes to standard output is
\"check ok\", or the first part that is wrong. No file is made. A script with disks is not checked.

Exit codes: 0 played, or explained, 1 no memory, 2 other words or no such cycle, 3 a file could not
be read, 4 the capture or a disk file is no WAVE file that is read, 5 the script can't be played, or
is not checked, 6 a file could not be written, 7 the script and what it is played with differ, 8 the
report is none of the script's, or does not explain its files, 9 played with --strict, and a call
was refused, a block lost, or there was an underrun.

The sources have the formats of scripts and reports in docs/FORMATS.md, and sessions in examples/.";

// How the program is called.
fn program<'a>(alloc: Global) -> Result<Command<'a>, AllocError> {
    let play = Command::new(alloc, "play").about("Plays a session, and prints its report");
    let rehearse = Command::new(alloc, "rehearse").about(
        "Plays a large session made from a number, and sums it up",
    );
    let graph = Command::new(alloc, "graph").about("Prints the graph that a cycle of a play used");
    let check = Command::new(alloc, "check").about(
        "Checks whether a report explains the files of a play",
    );
    let help = Arg::new(alloc, "help")
        .long("help")
        .action(ArgAction::SetTrue)
        .help("Print this text");
    let version = Arg::new(alloc, "version")
        .long("version")
        .action(ArgAction::SetTrue)
        .help("Print the version");
    Command::new(alloc, "jackd")
        .version("0.4.0")
        .about(
            "An audio server whose output is proved: it plays a session's script over WAVE files",
        )
        .override_usage(USAGE)
        .after_help(NAMES)
        .disable_help_subcommand(true)
        .disable_help_flag(true)
        .disable_version_flag(true)
        .subcommand(play)?
        .subcommand(rehearse)?
        .subcommand(graph)?
        .subcommand(check)?
        .arg(help)?
        .arg(version)
}

/// Prints the help on standard output.
pub fn print_help(rt: &(impl Print + AllocGlobal)) -> io::Result<()> {
    let text = program(rt.alloc())?.render_long_help()?;
    rt.print(text.as_str())
}

/// Prints the program's name and its version on standard output.
pub fn print_version(rt: &(impl Print + AllocGlobal)) -> io::Result<()> {
    let text = program(rt.alloc())?.render_version()?;
    rt.print(text.as_str())
}
