//! The log of a run, written in blocks while it runs.
ghost use Rattle.std.specs.Prelude.{◌≡◌, ◌++◌, ◌-◌, ◌^◌, ◌<◌, [], IfOk, OnOk, string_bytes};
ghost use Rattle.counted_io.specs.Counted.{failures_of};
ghost use Rattle.counted_io.specs.Writes.{IsBeginning, Writes};
ghost use Rattle.inorder.specs.Machine.{step as step_of};
ghost use Rattle.commit_log.specs.Logs.{IsLogOfRun, line_of, log};
ghost use Rattle.commit_log.specs.Steps.{HasLogged, HasLoggedRun, IsLoggedStep, end_ahead, log_ahead};

use crate::fetched::Fetched;
use crate::line::{push_commit, push_hash, push_limit, push_stop};
use command_line::Logged;
use counted_io::{Counted, Fault, write_whole};
use inorder::{Machine, Stepped};
use instructions::{Ending, Program, Stop};
use std::alloc::{AllocError, Global};
use std::io::Write;

/// A block is written once it has this many bytes.
const BLOCK: usize = 65_536;

/// More than a line has.
const LINE: usize = 256;

// Adds the line that is asked for of an instruction that was run, if one is.
fn push_line(
    out: &mut String,
    asked: &Logged<'_>,
    fetched: &Fetched,
    machine: &Machine<'_>,
) -> Result<(), AllocError>
    ensures { OnOk result (string_bytes out.new ≡ string_bytes out.old
        ++ line_of asked.now fetched.now.pc fetched.now.instr fetched.now.address machine.now.state) }
{
    let count = machine.count();
    if count < asked.from {
        return Ok(());
    }
    if asked.hash == 0 {
        return push_commit(out, asked.text, fetched, machine.registers());
    }
    if count % asked.hash == 0 {
        return push_hash(out, machine);
    }
    Ok(())
}

// Runs the next instruction and adds its line, or adds that of the stop. The result is the stop.
fn push_step(
    out: &mut String,
    asked: &Logged<'_>,
    program: &Program,
    machine: &mut Machine<'_>,
) -> Result<Option<Stop>, AllocError>
    requires program { machine.old.program ≡ program.now }
    requires below { machine.old.state.count < 2 ^ 64 - 1 }
    ensures { IfOk result (λ stop. IsLoggedStep asked.now machine.old machine.new
        (string_bytes out.old) (string_bytes out.new) stop
        (step_of machine.old.program machine.old.state)) }
{
    let pc = machine.pc();
    let Some(instr) = program.fetch(pc) else {
        push_stop(out, pc, Stop::BadPc, 0)?;
        return Ok(Some(Stop::BadPc));
    };
    let address = machine.register(instr.first()).wrapping_add(instr.number());
    let fetched = Fetched { pc, instr, address };
    match machine.step() {
        Stepped::Ran => {
            push_line(out, asked, &fetched, machine)?;
            Ok(None)
        }
        Stepped::Stopped(stop) => {
            push_stop(out, pc, stop, address)?;
            Ok(Some(stop))
        }
    }
}

// Writes a block, if it is full, and begins another.
fn write_full<W: Write>(block: &mut String, writer: &mut Counted<W>) -> Result<(), Fault>
    requires { failures_of writer.old < 2 ^ 64 - 1 }
    ensures { Writes W.contents writer.old writer.new
        (λ _. HasLogged (string_bytes block.old) (string_bytes block.new))
        (IsBeginning (string_bytes block.old)) result }
{
    if block.len() < BLOCK {
        return Ok(());
    }
    write_whole(writer, block.as_str().as_bytes())?;
    block.clear();
    Ok(())
}

// Runs a machine to its end or its limit, and writes its log, but for the last block.
fn log_blocks<W: Write>(
    block: &mut String,
    asked: &Logged<'_>,
    program: &Program,
    machine: &mut Machine<'_>,
    writer: &mut Counted<W>,
) -> Result<Ending, Fault>
    requires program { machine.old.program ≡ program.now }
    requires empty { string_bytes block.old ≡ [] }
    requires room { failures_of writer.old < 2 ^ 64 - 1 }
    ensures { Writes W.contents writer.old writer.new
        (HasLoggedRun (log_ahead asked.now machine.old) (string_bytes block.new)
        (end_ahead asked.now machine.old))
        (IsBeginning (log_ahead asked.now machine.old)) result }
{
    'steps: while machine.count() < asked.limit {
        match push_step(block, asked, program, machine)? {
            None => write_full(block, writer)?,
            Some(stop) => return Ok(Ending::Stop(stop)),
        }
    }
    push_limit(block, machine.pc())?;
    Ok(Ending::Limit)
}

/// Runs a program in order up to the limit, and writes its log. The result is how it has ended.
pub(crate) fn log_run<W: Write>(
    alloc: Global,
    asked: &Logged<'_>,
    program: &Program,
    writer: &mut Counted<W>,
) -> Result<Ending, Fault>
    requires { failures_of writer.old < 2 ^ 64 - 1 }
    ensures { Writes W.contents writer.old writer.new
        (IsLogOfRun asked.now program.now) (IsBeginning (log asked.now program.now)) result }
{
    let mut machine = Machine::new(alloc, program)?;
    let mut block = String::with_capacity(alloc, BLOCK + LINE)?;
    let ending = log_blocks(&mut block, asked, program, &mut machine, writer)?;
    write_whole(writer, block.as_str().as_bytes())?;
    Ok(ending)
}
